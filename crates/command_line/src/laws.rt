//! What the words of a command mean.

ghost use Rattle.command_line.specs.Laws.{DemosHaveLimits, FurtherWordIsDeclaredLast, OptionsHaveTheirNumbers, OptionsStandOnce, OrderSaysNothing, SizesHaveDefaults, StoredRunIsBare, StoredThreadsAreBare, WordsAreOneCommand};

/// No words are two commands.
pub fn words_are_one_command()
    ensures { WordsAreOneCommand }
{}

/// The order of options, and whether one is written in one word or in two, says nothing; declared words keep theirs.
pub fn order_says_nothing()
    ensures { OrderSaysNothing }
{}

/// No option stands twice, in whatever spellings.
pub fn options_stand_once()
    ensures { OptionsStandOnce }
{}

/// An option that stands in the words gives its command the number of its digits.
pub fn options_have_their_numbers()
    ensures { OptionsHaveTheirNumbers }
{}

/// A further word that is no option is declared last, so declared words keep their order.
pub fn further_word_is_declared_last()
    ensures { FurtherWordIsDeclaredLast }
{}

/// Where no option stands, the sizes are the defaults.
pub fn sizes_have_defaults()
    ensures { SizesHaveDefaults }
{}

/// `run` without a declared word takes no option, and is that word alone, or with `--` behind it.
pub fn stored_run_is_bare()
    ensures { StoredRunIsBare }
{}

/// So it is with `threads`.
pub fn stored_threads_are_bare()
    ensures { StoredThreadsAreBare }
{}

/// A demo's seed goes to 1000000 and its rows from 1 to 200000; what is past them is no demo, and what is within them is one.
pub fn demos_have_limits()
    ensures { DemosHaveLimits }
{}
