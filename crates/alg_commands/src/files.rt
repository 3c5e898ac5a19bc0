ghost use Rattle.std.specs.Prelude.{◌≡◌, ◌≤◌, ◌^◌, [], ◌∷◌, length, IfOk, OnErr, MatchOption, List, Some};
ghost use Rattle.std.specs.Str.{chars};
ghost use Rattle.alg_lex.specs.Items.{items_from, beginning, Item};
ghost use Rattle.alg_lex.specs.Answer.{item_of};
ghost use Rattle.alg_commands.specs.Cutting.{commands_of};
ghost use Rattle.alg_commands.specs.Cuts.{IsCut};
ghost use Rattle.alg_commands.specs.Pieces.{with_word};
ghost use Rattle.alg_commands.specs.Outcome.{Gives};
ghost use Rattle.alg_commands.specs.declared.readings.Reading as declared;

use crate::items::next_item;
use crate::pieces::pass;
use crate::readings::{Reading, read};
use alg_expr::Memory;
use alg_lex::{LexFault, Lexer, Token};
use std::alloc::Global;
use std::marker::Model;

/// The commands of a file, one at a time. Contracts see the commands that are to come, each as its tokens and faults.
///
/// A command goes from a word `import`, `variable`, `theorem`, `lemma` or `example` up to the next such word or the
/// end of the file. What stands before the first such word is one command more, which has no reading.
#[derive(Drop)]
pub struct Commands<'a> {
    alloc: Global,
    lexer: Lexer<'a>,
    // The word that begins the next command, where it was passed.
    word: Option<Token<'a>>,
}

impl<'a> Model for Commands<'a> {
    ghost use Rattle.std.specs.Prelude.{List};
    ghost use Rattle.alg_lex.specs.Items.{Item};

    ghost Value = { List (List Item) };

    ghost use Rattle.alg_commands.specs.Cutting.{commands_of};
    ghost use Rattle.alg_commands.specs.Pieces.{with_word};

    ghost view = { λ c. commands_of (with_word c.word c.lexer) };
}

// The first token or fault of the next command.
fn first_item<'a>(
    word: Option<Token<'a>>,
    lexer: &mut Lexer<'a>,
) -> Option<Result<Token<'a>, LexFault>>
    ensures { MatchOption result ((with_word word.entry lexer.old ≡ []) × (lexer.new ≡ []))
        (λ i. with_word word.entry lexer.old ≡ item_of i ∷ lexer.new) }
{
    match word {
        Some(token) => Some(Ok(token)),
        None => next_item(lexer),
    }
}

impl<'a> Commands<'a> {
    /// The commands of a source of at most 16 MiB.
    pub fn new(alloc: Global, src: &'a str) -> Commands<'a>
        requires { length src.now ≤ 2 ^ 24 }
        ensures commands { result ≡ commands_of (items_from beginning (chars src.now)) }
        ensures cut { IsCut (items_from beginning (chars src.now)) result }
        // There is no other cut.
        ensures only { (cs : List (List Item)) → IsCut (items_from beginning (chars src.now)) cs → cs ≡ result }
    {
        Commands {
            alloc,
            lexer: Lexer::new(src),
            word: None,
        }
    }

    fn read_next(&mut self) -> Result<Option<Reading<'a>>, Memory>
        ensures read { IfOk result (λ o. MatchOption o ((self.old ≡ []) × (self.new ≡ [])) (λ r. Gives self.old r self.new)) }
        ensures only { IfOk result (λ o. (r : declared.Reading) (left : List (List Item)) → Gives self.old r left → o ≡ Some r) }
    {
        let word = self.word;
        self.word = None;
        let Some(first) = first_item(word, &mut self.lexer) else {
            return Ok(None);
        };
        let (piece, word) = pass(self.alloc, first, &mut self.lexer)?;
        self.word = word;
        let reading = read(self.alloc, &piece)?;
        Ok(Some(reading))
    }

    // Passes all that is to come.
    fn end(&mut self)
        ensures { self.new ≡ [] }
    {
        self.lexer = Lexer::new("");
        self.word = None;
    }

    /// Reads the next command, or answers `None` at the end of the file. Once memory was wanting no command is to come.
    ///
    /// No more than 4,097 of a command's tokens are kept at a time, and nothing recurses.
    pub fn next(&mut self) -> Result<Option<Reading<'a>>, Memory>
        ensures read { IfOk result (λ o. MatchOption o ((self.old ≡ []) × (self.new ≡ [])) (λ r. Gives self.old r self.new)) }
        // There is no other reading.
        ensures only { IfOk result (λ o. (r : declared.Reading) (left : List (List Item)) → Gives self.old r left → o ≡ Some r) }
        ensures failed { OnErr result (self.new ≡ []) }
    {
        match self.read_next() {
            Ok(found) => Ok(found),
            Err(memory) => {
                self.end();
                Err(memory)
            }
        }
    }
}
