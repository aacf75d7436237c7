// Reading operations.
ghost use Rattle.std.specs.Prelude.{◌≡◌};
ghost use Rattle.forms_model.specs.Reading.{Took};
ghost use Rattle.forms_model.specs.Operations.{verb_of, asked, operation_body, operation_at};

use forms_model::verb::{NestVerb, Verb};
use keys::refusal::Refusal;
use plain_model::line_op::LineOp;
use plain_model::nest_op::NestOp;
use plain_model::side::Side;
use reader::Reader;
use trades::trade::Trade;

// An operation of a floor: of its nest or of its line.
pub type Operation<K, E> = Side<NestOp<K>, LineOp<E>>;

// The verb that a word names. It is no `TryFrom`: the error would carry nothing, and the caller would drop it.
fn verb(name: &[u8]) -> Option<Verb>
    ensures { result ≡ verb_of name.now }
{
    match name {
        b"add" => Some(Verb::Nest(NestVerb::Add)),
        b"drop" => Some(Verb::Nest(NestVerb::Drop)),
        b"find" => Some(Verb::Nest(NestVerb::Find)),
        b"put" => Some(Verb::Put),
        b"take" => Some(Verb::Take),
        _ => None,
    }
}

fn asked<K: Copy>(verb: NestVerb, key: K) -> NestOp<K>
    ensures { result ≡ asked verb key }
{
    match verb {
        NestVerb::Add => NestOp::Add(key),
        NestVerb::Drop => NestOp::Drop(key),
        NestVerb::Find => NestOp::Find(key),
    }
}

// Reads what follows the verb.
fn operation_body<T: Trade>(
    verb: Verb,
    reader: &mut Reader<'_, '_>,
) -> Option<Result<Operation<T::Key, T::Element>, Refusal>>
    ensures { Took result (operation_body T.rules verb reader.old) reader.new }
{
    Some(match verb {
        Verb::Nest(verb) => T::key(reader)?.map(|key| Side::First(asked(verb, key))),
        Verb::Put => T::element(reader)?.map(|element| Side::Second(LineOp::Put(element))),
        Verb::Take => Ok(Side::Second(LineOp::Take)),
    })
}

// Reads `(add K)`, `(drop K)`, `(find K)`, `(put E)` or `(take)`.
pub fn operation<T: Trade>(
    reader: &mut Reader<'_, '_>,
) -> Option<Result<Operation<T::Key, T::Element>, Refusal>>
    ensures { Took result (operation_at T.rules reader.old) reader.new }
{
    reader.open()?;
    let verb = verb(reader.word()?)?;
    let operation = operation_body::<T>(verb, reader)?;
    reader.close()?;
    Some(operation)
}
