//! Laws of the words of command lines.
ghost use Rattle.cli.specs.Forms.{FormLaw, MistakeLaw};

/// After `--` the word is the file, whatever it begins with, and after `=` the word is the option's. This holds for any
/// words. A command without its file or its option, with two of either or with another command's option is a mistake.
pub fn form_law()
    ensures form { FormLaw }
    ensures mistake { MistakeLaw }
{}
