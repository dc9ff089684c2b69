//! The instances of hosts.
ghost use Rattle.std.specs.Prelude.{◌≡◌, ◌≢◌, ◌<◌, ◌≤◌, suc, length, Err, IfOk, OnOk};
ghost use Rattle.chart.specs.declared.instance.TheConstants.{MAX_INSTANCES};
ghost use Rattle.log_chart.specs.Named.Entering.{with_word, place_in};

use chart::{InstanceNo, Name, Names, NamesError};

/// The instance of a name. A new name is added. F8 refuses the 33rd.
pub(crate) fn instance_in(names: &mut Names, name: Name) -> Result<InstanceNo, NamesError>
    requires few { length names.old ≤ MAX_INSTANCES }
    ensures instance { IfOk result (λ p. p ≡ suc (place_in names.old name)) }
    ensures kept { OnOk result (names.new ≡ with_word names.old name) }
    ensures few { OnOk result (length names.new ≤ MAX_INSTANCES) }
    ensures new { result ≢ Err NamesError.Duplicate }
    ensures full { (result ≡ Err NamesError.Instances) → MAX_INSTANCES < length (with_word names.old name) }
{
    if let Some(instance) = names.instance(name) {
        return Ok(instance);
    }
    let added = names.add(name)?;
    Ok(added)
}
