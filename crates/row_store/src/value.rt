// A value in two words.

ghost use Rattle.std.specs.Prelude.{◌≡◌, ◌+◌, ◌<◌, ◌^◌, ◌∷◌, [], Contains};
ghost use Rattle.orca_names.specs.declared.names.Value.{Value as value};
ghost use Rattle.row_store.specs.Words.{FitsValue, LieAt, SameWords, head_word, tail_word, value_of, with_words};

use crate::words::RowWords;
use orca_names::{ActorName, ObjName, Serial, Value};

// The kind of a value, with the actor that it names or that owns it.
fn head_of(v: &Value) -> u64
    ensures { result ≡ head_word v.now }
{
    match v {
        Value::Null => 0,
        Value::Num(_) => 1,
        Value::Actor(a) => 2 + 4 * u64::from(a.0),
        Value::Obj(n) => 3 + 4 * u64::from(n.owner.0),
    }
}

// Its number or serial.
fn tail_of(v: &Value) -> u64
    ensures word { result ≡ tail_word v.now }
    ensures fits { FitsValue v.now }
{
    match v {
        Value::Null => 0,
        Value::Num(n) => *n,
        Value::Actor(a) => {
            // It has 32 bits, as proofs see where it is read.
            let _fits = a.0;
            0
        }
        Value::Obj(n) => {
            let _fits = n.owner.0;
            n.serial.get()
        }
    }
}

// The value of two words.
fn value_of(head: u64, tail: u64) -> Value
    requires { head < 2 ^ 34 }
    ensures { result ≡ value_of head tail }
{
    let name = ActorName((head / 4) as u32);
    let kind = head % 4;
    if kind == 0 {
        return Value::Null;
    }
    if kind == 1 {
        return Value::Num(tail);
    }
    if kind == 2 {
        return Value::Actor(name);
    }
    Value::Obj(ObjName {
        owner: name,
        serial: Serial::of(tail),
    })
}

/// Writes a value into the two words from a place on.
pub(crate) fn put_value<W: RowWords>(words: &mut W, at: u64, v: &Value)
    requires fits { at + 1 < 2 ^ 64 }
    requires places { Contains (W.places words.old) at × Contains (W.places words.old) (at + 1) }
    ensures known { W.known words.new
        ≡ with_words at (head_word v.now ∷ tail_word v.now ∷ []) (W.known words.old) }
    ensures places { W.places words.new ≡ W.places words.old }
    ensures beside { W.beside words.new ≡ W.beside words.old }
    ensures value { FitsValue v.now }
{
    words.put_word(at, head_of(v));
    words.put_word(at + 1, tail_of(v));
}

/// Reads the value that lies in the two words from a place on.
pub(crate) fn value_at<W: RowWords>(words: &mut W, at: u64) -> Value
    requires fits { at + 1 < 2 ^ 64 }
    requires known { (v : value) × FitsValue v
        × LieAt at (head_word v ∷ tail_word v ∷ []) (W.known words.old) }
    ensures value { (v : value) → LieAt at (head_word v ∷ tail_word v ∷ []) (W.known words.old)
        → result ≡ v }
    ensures same { SameWords W.known W.places W.beside words.old words.new }
{
    let head = words.get_word(at);
    let tail = words.get_word(at + 1);
    value_of(head, tail)
}
