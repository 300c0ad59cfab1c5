//! What the definitions come to: each law is the contract of a function.
ghost use Rattle.std.specs.Prelude.{◌≡◌, ℕ, true, List};
ghost use Rattle.bc_words.specs.Words.{IsInRange, Spells};
ghost use Rattle.bc_words.specs.Example.{check_words, format_words, format_command, serve_words, serve_command};
ghost use Rattle.bc_words.specs.declared.command.Command.{Command};

/// Words spell one command at most.
pub fn one_command()
    ensures { (words : List (List ℕ)) (a b : Command) → IsInRange a → IsInRange b
        → Spells words a → Spells words b → a ≡ b }
{}

/// The words of an example spell it, and it is in range.
pub fn format_example()
    ensures range { IsInRange format_command }
    ensures spelled { Spells format_words format_command }
{}

/// The same of a command with some of its options.
pub fn serve_example()
    ensures range { IsInRange serve_command }
    ensures spelled { Spells serve_words serve_command }
{}

/// The same of a command with a flag.
pub fn check_example()
    ensures { Spells check_words (Command.Check true) }
{}
