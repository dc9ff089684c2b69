//! Draws the random acts of an instance.
use crate::acts::Acts;
use anyhow::bail;
use behaviour::Act;
use chart::{InstanceNo, MAX_BODY, MAX_INSTANCES, Message, Name};
use rand_core::SeedableRng;
use rand_core::utils::NextWord;
use rand_pcg::Lcg64Xsh32;
use std::alloc::{AllocError, Global};
use std::collections::VecDeque;

/// The number of turns of an instance. It stops in the last one.
pub const TURNS: u32 = 500;

/// The names of messages.
static NAMES: [&[u8]; 6] = [
    b"x",
    b"y",
    b"ping",
    b"cancel_2",
    b"Order",
    b"a_name_that_has_thirty_two_bytes",
];

/// A random number below `many`.
fn below(generator: &mut Lcg64Xsh32, many: usize) -> usize {
    generator.next_word() as usize % many.max(1)
}

/// A random partner: mostly an instance of the board, which may be the sender itself, and otherwise any instance that
/// has a number.
fn random_partner(generator: &mut Lcg64Xsh32, instances: usize) -> InstanceNo {
    let many = if below(generator, 4) == 0 {
        MAX_INSTANCES
    } else {
        instances
    };
    InstanceNo::at_place(below(generator, many) % MAX_INSTANCES)
}

/// A random name.
fn random_name(generator: &mut Lcg64Xsh32) -> anyhow::Result<Name> {
    match NAMES.get(below(generator, NAMES.len())) {
        Some(bytes) => Ok(Name::new(bytes)?),
        None => bail!("no such name"),
    }
}

/// A random body: no bytes, a few, some more, or up to the most that a body may have.
fn random_body(alloc: Global, generator: &mut Lcg64Xsh32) -> Result<Vec<u8>, AllocError> {
    let bytes = match below(generator, 8) {
        0 | 1 => 0,
        2..=5 => below(generator, 64),
        6 => below(generator, 1024),
        // (half of these are as long as possible)
        _ => below(generator, 8192).min(MAX_BODY),
    };
    let mut body = Vec::with_capacity(alloc, bytes)?;
    for _ in 0..bytes {
        body.push((generator.next_word() & 0xff) as u8)?;
    }
    Ok(body)
}

/// A random message.
fn random_message(alloc: Global, generator: &mut Lcg64Xsh32) -> anyhow::Result<Message> {
    let name = random_name(generator)?;
    match Message::new(name, random_body(alloc, generator)?) {
        Ok(message) => Ok(message),
        Err(_) => bail!("a body has at most 4,096 bytes"),
    }
}

/// A send to a random partner.
fn random_send(alloc: Global, generator: &mut Lcg64Xsh32, instances: usize) -> anyhow::Result<Act> {
    let to = random_partner(generator, instances);
    Ok(Act::Send(to, random_message(alloc, generator)?))
}

/// A random act of an instance. Lanes are rarely closed, and coregions are more often closed than opened.
fn random_act(alloc: Global, generator: &mut Lcg64Xsh32, instances: usize) -> anyhow::Result<Act> {
    match below(generator, 1000) {
        0..=399 => random_send(alloc, generator, instances),
        400..=599 => Ok(Act::Receive(random_partner(generator, instances))),
        600..=847 => Ok(Act::Any),
        848 | 849 => Ok(Act::Close(random_partner(generator, instances))),
        850..=879 => Ok(Act::Open),
        _ => Ok(Act::Shut),
    }
}

/// The acts of the instance at a place, among this number of instances, in the run with this seed.
pub fn acts_of_seed(
    alloc: Global,
    seed: u64,
    place: usize,
    instances: usize,
) -> anyhow::Result<Acts> {
    let of_place = seed
        .wrapping_mul(MAX_INSTANCES as u64)
        .wrapping_add(place as u64);
    let mut generator = Lcg64Xsh32::seed_from_u64(of_place);
    let mut queue = VecDeque::new(alloc);
    for _ in 1..TURNS {
        queue.push_back(random_act(alloc, &mut generator, instances)?)?;
    }
    Ok(Acts::new(queue))
}
