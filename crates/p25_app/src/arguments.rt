//! The words of a call among its arguments.

ghost use Rattle.std.specs.{Prelude.{◌≡◌, [], ◌∷◌, codes, drop, map, string_bytes}, List.{fold}, Vec.Iter.{into_iter_items}};
ghost use Rattle.p25_tool.specs.Words.{added};
ghost use Rattle.p25_app.specs.Calls.{words_given};

use p25_tool::Words;
use std::env::Args;
use std::io;
use std::io::ErrorKind;

/// Returns the words of a call: its arguments but the first, which is the program's own name.
///
/// Arguments that cannot be read are the one word `?`, which names no command. `None` is returned if the allocation for
/// the arguments failed.
pub fn words_of(arguments: io::Result<Args>) -> Option<Words>
    ensures { result ≡ words_given arguments }
{
    match arguments {
        Ok(arguments) => Some(words_from(without_name(arguments))),
        Err(error) => match error.kind() {
            ErrorKind::OutOfMemory => None,
            _ => Some(unreadable_words()),
        },
    }
}

// Returns the arguments without the first.
fn without_name(mut arguments: Args) -> Args
    ensures { into_iter_items result ≡ drop 1 (into_iter_items arguments) }
{
    let _ = arguments.next();
    arguments
}

// Returns the words of arguments.
fn words_from(arguments: Args) -> Words
    ensures { result ≡ fold added [] (map string_bytes (into_iter_items arguments)) }
{
    let mut words = Words::new();
    for argument in arguments {
        words.add(argument.as_bytes());
    }
    words
}

// Returns the words for arguments that cannot be read.
fn unreadable_words() -> Words
    ensures { result ≡ codes "?" ∷ [] }
{
    let mut words = Words::new();
    words.add(b"?");
    words
}
