//! What the program says of its use.

/// The help text.
pub const HELP: &str = "Reads a rule and says what it is made of, or why it is refused.\n\n\
     \x20 rules check [FILE]\n\
     \x20 rules rows [FILE]\n\
     \x20 rules cases\n\
     \x20 rules help\n\n\
     check shows the signals, how many rows the rule has and how many of them remember.\n\
     rows lists the rows.\n\
     cases lists charges worked through by hand, with the rule's value at each sample.\n\
     FILE is rule.txt unless you name another.\n\
     A file that cannot be opened counts as empty.\n";

/// What is said to words that are no command.
pub const WRONG_USAGE: &str = "These words are no command of this program; write one of:\n\
     \x20 rules check [FILE]\n\
     \x20 rules rows [FILE]\n\
     \x20 rules cases\n\
     \x20 rules help\n";
