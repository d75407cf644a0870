//! Bytes as HTML has them.
ghost use Rattle.fmp_out.specs.Putting.{Adds};
ghost use Rattle.fmp_run_page.specs.Escapes as spec;

use fmp_out::Text;
use memchr::memchr2;

/// Adds a byte.
fn put_byte(out: &mut Text, byte: u8)
    ensures { Adds (spec.escaped_byte byte) out.old out.new }
{
    match byte {
        b'<' => out.put(b"&lt;"),
        b'&' => out.put(b"&amp;"),
        _ => out.put_byte(byte),
    }
}

/// Adds bytes as they stand in a page.
pub fn put_escaped(out: &mut Text, bytes: &[u8])
    ensures { Adds (spec.escaped bytes.now) out.old out.new }
{
    let mut rest = bytes;
    while let Some(at) = memchr2(b'<', b'&', rest) {
        let from = &rest[at..];
        out.put(&rest[..at]);
        put_byte(out, from[0]);
        rest = &from[1..];
    }
    out.put(rest);
}

/// Nothing that is escaped begins a tag, so no text ends the element that it stands in; and what is read of it is what it was.
#[tactic(auto, using(crate::proofs::Tags::no_tag, crate::proofs::Tags::reads))]
pub fn escapes(bytes: &[u8])
    ensures no_tag { spec.HasNoTag (spec.escaped bytes.now) }
    ensures read_back { spec.Reads (spec.escaped bytes.now) bytes.now }
{
    let _ = bytes;
}
