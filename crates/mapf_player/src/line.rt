//! How a line of a word and a number is put on a page, for the player and for the replies.
ghost use Rattle.std.specs.Prelude.{◌≡◌, ◌++◌, false};
ghost use Rattle.std.specs.Result.{is_err};
ghost use Rattle.std.specs.Fmt.{decimal};
ghost use Rattle.mapf_fields.specs.Pages.{PassesOrFails};
ghost use Rattle.mapf_player.specs.Play.{line};

use itoa::Buffer;
use mapf_fields::Page;
use mapf_model::{Failed, Sink};

/// Writes a word and a number.
pub fn put_number<K: Sink>(
    page: &mut Page,
    sink: &mut K,
    word: &[u8],
    number: u32,
) -> Result<(), Failed>
    requires { K.has_failed sink.old ≡ false }
    ensures text { PassesOrFails (K.contents sink.old) (K.contents sink.new) page.old page.new
        (word.now ++ decimal number) result }
    ensures failed { K.has_failed sink.new ≡ is_err result }
{
    let mut buffer = Buffer::new();
    page.put(sink, word)?;
    page.put(sink, buffer.format(number).as_bytes())
}

/// Writes a word, a number and LF.
pub fn put_line<K: Sink>(
    page: &mut Page,
    sink: &mut K,
    word: &[u8],
    number: u32,
) -> Result<(), Failed>
    requires { K.has_failed sink.old ≡ false }
    ensures text { PassesOrFails (K.contents sink.old) (K.contents sink.new) page.old page.new
        (line word.now number) result }
    ensures failed { K.has_failed sink.new ≡ is_err result }
{
    put_number(page, sink, word, number)?;
    page.put(sink, b"\n")
}
