//! How an object is written: piece by piece, so that it needs no memory.
ghost use Rattle.std.specs.Prelude.{◌≡◌, ◌≤◌, ℕ, false, OnErr, OnOk, length, take};
ghost use Rattle.std.specs.Result.{is_err};
ghost use Rattle.std.specs.Io.KnownBytes.{Appends};
ghost use Rattle.mapf_json.specs.Objects.{word};
ghost use Rattle.mapf_json.specs.Written.{joined, number_text, object_text, rest_text, text_text, word_text};

use crate::object::{Number, Object, Word};
use itoa::Buffer;
use mapf_model::{Failed, Sink, write_all};

// Writes these texts one after another.
fn write_joined<K: Sink>(sink: &mut K, texts: &[&str]) -> Result<(), Failed>
    requires { K.has_failed sink.old ≡ false }
    ensures text { OnOk result (Appends (K.contents sink.old) (K.contents sink.new) (joined texts.now)) }
    ensures failed { K.has_failed sink.new ≡ is_err result }
    ensures prefix { OnErr result ((n : ℕ) × (n ≤ length (joined texts.now))
        × Appends (K.contents sink.old) (K.contents sink.new) (take n (joined texts.now))) }
{
    for text in texts {
        write_all(sink, text.as_bytes())?;
    }
    Ok(())
}

// Writes the member of a name whose value is a word.
fn write_member<K: Sink>(sink: &mut K, name: &str, value: &str) -> Result<(), Failed>
    requires { K.has_failed sink.old ≡ false }
    ensures text { OnOk result (Appends (K.contents sink.old) (K.contents sink.new) (word name.now value.now)) }
    ensures failed { K.has_failed sink.new ≡ is_err result }
    ensures prefix { OnErr result ((n : ℕ) × (n ≤ length (word name.now value.now))
        × Appends (K.contents sink.old) (K.contents sink.new) (take n (word name.now value.now))) }
{
    write_joined(sink, &[",\"", name, "\":\"", value, "\""])
}

// Writes the fault, the refusal or the cause, if there is one.
fn write_code<K: Sink>(sink: &mut K, code: Option<Word>) -> Result<(), Failed>
    requires { K.has_failed sink.old ≡ false }
    ensures text { OnOk result (Appends (K.contents sink.old) (K.contents sink.new) (word_text code)) }
    ensures failed { K.has_failed sink.new ≡ is_err result }
    ensures prefix { OnErr result ((n : ℕ) × (n ≤ length (word_text code))
        × Appends (K.contents sink.old) (K.contents sink.new) (take n (word_text code))) }
{
    match code {
        Some(Word { name, value }) => write_member(sink, name, value),
        None => Ok(()),
    }
}

// Writes the member of this name, if it has a value.
fn write_word<K: Sink>(sink: &mut K, name: &str, value: Option<&'static str>) -> Result<(), Failed>
    requires { K.has_failed sink.old ≡ false }
    ensures text { OnOk result
        (Appends (K.contents sink.old) (K.contents sink.new) (text_text name.now value.entry)) }
    ensures failed { K.has_failed sink.new ≡ is_err result }
    ensures prefix { OnErr result ((n : ℕ) × (n ≤ length (text_text name.now value.entry))
        × Appends (K.contents sink.old) (K.contents sink.new) (take n (text_text name.now value.entry))) }
{
    match value {
        Some(value) => write_member(sink, name, value),
        None => Ok(()),
    }
}

// Writes the number, if there is one.
fn write_number<K: Sink>(sink: &mut K, number: Option<Number>) -> Result<(), Failed>
    requires { K.has_failed sink.old ≡ false }
    ensures text { OnOk result (Appends (K.contents sink.old) (K.contents sink.new) (number_text number)) }
    ensures failed { K.has_failed sink.new ≡ is_err result }
    ensures prefix { OnErr result ((n : ℕ) × (n ≤ length (number_text number))
        × Appends (K.contents sink.old) (K.contents sink.new) (take n (number_text number))) }
{
    let Some(Number { name, value }) = number else {
        return Ok(());
    };
    let mut buffer = Buffer::new();
    write_joined(sink, &[",\"", name, "\":", buffer.format(value)])
}

// Writes what an object has after its verdict, and LF.
fn write_rest<K: Sink>(sink: &mut K, object: &Object) -> Result<(), Failed>
    requires { K.has_failed sink.old ≡ false }
    ensures text { OnOk result (Appends (K.contents sink.old) (K.contents sink.new) (rest_text object.now)) }
    ensures failed { K.has_failed sink.new ≡ is_err result }
    ensures prefix { OnErr result ((n : ℕ) × (n ≤ length (rest_text object.now))
        × Appends (K.contents sink.old) (K.contents sink.new) (take n (rest_text object.now))) }
{
    let (first, second, third) = object.numbers;
    write_code(sink, object.code)?;
    write_word(sink, "error", object.error)?;
    write_word(sink, "file", object.file)?;
    write_number(sink, first)?;
    write_number(sink, second)?;
    write_number(sink, third)?;
    write_all(sink, b"}\n")
}

/// Writes the object, and LF.
pub fn write_object<K: Sink>(sink: &mut K, object: &Object) -> Result<(), Failed>
    requires { K.has_failed sink.old ≡ false }
    ensures text { OnOk result (Appends (K.contents sink.old) (K.contents sink.new) (object_text object.now)) }
    ensures failed { K.has_failed sink.new ≡ is_err result }
    ensures prefix { OnErr result ((n : ℕ) × (n ≤ length (object_text object.now))
        × Appends (K.contents sink.old) (K.contents sink.new) (take n (object_text object.now))) }
{
    write_joined(sink, &["{\"verdict\":\"", object.verdict, "\""])?;
    write_rest(sink, object)
}
