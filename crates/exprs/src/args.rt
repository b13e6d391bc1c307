//! The words of a call.

ghost use Rattle.std.specs.Prelude.{◌≡◌, Some, IfSome};
ghost use Rattle.exprs.specs.Words as spec;

use std::alloc::Global;
use std::{env, io};
use syn_expr::Position;

/// How expressions are read, and what is written of them.
#[derive(Clone, Copy, Debug, PartialEq, Eq)]
pub struct Settings {
    /// Where each is printed.
    pub position: Position,
    /// Whether each loses its parentheses first.
    pub bare: bool,
    /// Whether one ends before a blank line, and not with its line.
    pub blocks: bool,
    /// Whether each is shown as a tree, and not printed.
    pub dump: bool,
    /// Whether each is printed with the white space that people write. It changes nothing where `dump` is set.
    pub tidy: bool,
    /// Whether the counts of kinds are printed, and not the expressions.
    pub kinds: bool,
}

impl Settings {
    /// Those of a call without options.
    pub fn new() -> Settings
        ensures { result ≡ spec.none_set }
    {
        Settings {
            position: Position::Plain,
            bare: false,
            blocks: false,
            dump: false,
            tidy: false,
            kinds: false,
        }
    }

    /// With what an option sets.
    pub fn with(self, option: Setting) -> Settings
        ensures { result ≡ spec.with_setting option self }
    {
        let mut settings = self;
        match option {
            Setting::Plain => settings.position = Position::Plain,
            Setting::Stmt => settings.position = Position::Stmt,
            Setting::Cond => settings.position = Position::Cond,
            Setting::Arm => settings.position = Position::Arm,
            Setting::Bare => settings.bare = true,
            Setting::Blocks => settings.blocks = true,
            Setting::Dump => settings.dump = true,
            Setting::Tidy => settings.tidy = true,
            Setting::Kinds => settings.kinds = true,
        }
        settings
    }
}

/// An option that sets something.
#[derive(Clone, Copy, Debug, PartialEq, Eq)]
pub enum Setting {
    /// Each expression is printed by itself.
    Plain,
    /// Each is printed as a statement.
    Stmt,
    /// Each is printed as a condition.
    Cond,
    /// Each is printed as the body of an arm.
    Arm,
    /// Each loses its parentheses first.
    Bare,
    /// Each ends before a blank line.
    Blocks,
    /// Each is shown as a tree.
    Dump,
    /// Each is printed as people write it.
    Tidy,
    /// Their kinds are counted.
    Kinds,
}

/// The option of this word.
fn named(word: &str) -> Option<Setting>
    ensures named { (o : Setting) → word.now ≡ spec.word o → result ≡ Some o }
    ensures word { IfSome result (λ o. word.now ≡ spec.word o) }
{
    match word {
        "--plain" => Some(Setting::Plain),
        "--stmt" => Some(Setting::Stmt),
        "--cond" => Some(Setting::Cond),
        "--arm" => Some(Setting::Arm),
        "--bare" => Some(Setting::Bare),
        "--blocks" => Some(Setting::Blocks),
        "--dump" => Some(Setting::Dump),
        "--tidy" => Some(Setting::Tidy),
        "--kinds" => Some(Setting::Kinds),
        _ => None,
    }
}

/// What a call asks for.
#[derive(Drop)]
pub enum Call {
    /// To say what the options are.
    Help,
    /// To say which version it is.
    Version,
    /// Nothing that is known.
    Unknown,
    /// To read these files.
    Run {
        /// How.
        settings: Settings,
        /// The names of the files.
        files: Vec<String>,
    },
}

/// What the words of a call ask for. A word that begins with `-` and is longer is an option; after `--` no word is.
pub fn asked(alloc: Global, words: env::Args) -> io::Result<Call> {
    let mut settings = Settings::new();
    let mut files = Vec::new(alloc);
    let mut options_end = false;
    for word in words {
        let text = word.as_str();
        if options_end || text == "-" || !text.starts_with('-') {
            files.push(word)?;
            continue;
        }
        match text {
            "--help" => return Ok(Call::Help),
            "--version" => return Ok(Call::Version),
            "--" => options_end = true,
            _ => match named(text) {
                Some(option) => settings = settings.with(option),
                None => return Ok(Call::Unknown),
            },
        }
    }
    Ok(Call::Run { settings, files })
}
