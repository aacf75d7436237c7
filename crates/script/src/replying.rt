// Replies, printed.
ghost use Rattle.std.specs.Prelude.{◌≡◌, ◌++◌, string_bytes, OnOk};
ghost use Rattle.script_model.specs.Replies.{line_of, reply_text};

use keys::text::Text;
use script_model::reply::Reply;
use std::alloc::AllocError;

// Prints a reply on a line of its own.
pub(crate) fn put_reply<A: Text>(out: &mut String, reply: &Reply<A>) -> Result<(), AllocError>
    ensures { OnOk result (string_bytes out.new ≡ string_bytes out.old ++ line_of (reply_text A.Text.bytes reply.now)) }
{
    writeln!(out, "{reply}")
}
