//! The parts of a page.
ghost use Rattle.fmp_out.specs.Putting.{Adds};
ghost use Rattle.fmp_run_page.specs.Parts as spec;

use crate::causes::CAUSES;
use crate::controls::CONTROLS;
use crate::drawing::DRAWING;
use crate::head::HEAD;
use crate::lanes::LANES;
use crate::lines::LINES;
use crate::measures::MEASURES;
use crate::reading::READING;
use fmp_out::Text;

/// Adds what stands before the texts of a page.
#[tactic(auto, unfolding(crate::specs::Parts::head))]
pub fn put_head(out: &mut Text)
    ensures { Adds spec.head out.old out.new }
{
    out.put(HEAD);
}

/// Adds the parts of the script that read and draw.
#[tactic(auto, unfolding(crate::specs::Parts::picture))]
fn put_picture(out: &mut Text)
    ensures { Adds spec.picture out.old out.new }
{
    out.put(READING);
    out.put(CAUSES);
    out.put(LANES);
    out.put(DRAWING);
}

/// Adds the parts of the script that answer to who looks at it.
#[tactic(auto, unfolding(crate::specs::Parts::answers))]
fn put_answers(out: &mut Text)
    ensures { Adds spec.answers out.old out.new }
{
    out.put(LINES);
    out.put(MEASURES);
    out.put(CONTROLS);
}

/// What stands after the script.
const SCRIPT_END: &[u8] = b"</script>\n</body>\n</html>\n";

/// Adds what stands after the texts of a page.
#[tactic(auto, unfolding(crate::specs::Parts::tail))]
pub fn put_tail(out: &mut Text)
    ensures { Adds spec.tail out.old out.new }
{
    out.put(b"<script>\n");
    put_picture(out);
    put_answers(out);
    out.put(SCRIPT_END);
}

/// What stands before the name of a text.
const NAME_BEGIN: &[u8] = b"<pre hidden id='";

/// Adds what stands before a text of this name.
#[tactic(auto, unfolding(crate::specs::Parts::text_begin))]
pub fn put_text_begin(out: &mut Text, name: &[u8])
    ensures { Adds (spec.text_begin name.now) out.old out.new }
{
    out.put(NAME_BEGIN);
    out.put(name);
    out.put(b"'>\n");
}

/// Adds what stands after a text.
#[tactic(auto, unfolding(crate::specs::Parts::text_end))]
pub fn put_text_end(out: &mut Text)
    ensures { Adds spec.text_end out.old out.new }
{
    out.put(b"</pre>\n");
}
