//! Consequences of the definitions, as contracts of functions that do nothing.
ghost use Rattle.board.specs.LongRuns.Laws.{FirstLaw, GatheredLaw, NewPostsLaw, AgainLaw, LegalLaw, LanesLaw};

/// What may be carried over: empty lists to a first board, and the lists from gathering a whole board to the posts of a
/// new board. The new board has as many instances, and its lanes have at least as many slots. After F6 the lists may be
/// carried over to the same posts once more.
pub fn premise_law()
    ensures first { FirstLaw }
    ensures gathered { GatheredLaw }
    ensures new_posts { NewPostsLaw }
    ensures again { AgainLaw }
{}

/// The carried history is legal, and each lane is in it as it was left.
pub fn carried_law()
    ensures legal { LegalLaw }
    ensures lanes { LanesLaw }
{}
