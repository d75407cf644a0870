//! The lines of the classes, and the class of an object in its line.
ghost use Rattle.std.specs.Prelude.{◌≡◌, map};
ghost use Rattle.fmp_out.specs.Putting.{Adds};
ghost use Rattle.fmp_run_list.specs.Listing.Classes as spec;

use fmp_out::Text;
use fmp_setup::{Class, Config, NamedClass};

/// Adds a processor after a blank.
#[tactic(auto, unfolding(crate::specs::Listing::Classes::processor_text))]
pub fn put_processor(out: &mut Text, number: u64)
    ensures { Adds (spec.processor_text number) out.old out.new }
{
    out.put(b" P");
    out.put_number(number);
}

/// Adds the processor of a number after a blank, where it is a member.
fn put_member(out: &mut Text, number: u64, is_member: bool)
    ensures { Adds (spec.member_text number is_member) out.old out.new }
{
    if is_member {
        put_processor(out, number);
    }
}

/// Adds the members, each after a blank. The first of the list is processor 1.
fn put_members(out: &mut Text, members: &[bool])
    ensures { Adds (spec.members_from 1 members.now) out.old out.new }
{
    for (index, member) in members.iter().enumerate() {
        put_member(out, index as u64 + 1, *member);
    }
}

/// Adds the line of a class.
#[tactic(auto, unfolding(crate::specs::Listing::Classes::class_line))]
fn put_class_line(out: &mut Text, name: &[u8], class: Class)
    ensures { Adds (spec.class_line name.now class) out.old out.new }
{
    out.put(b"class ");
    out.put(name);
    out.put(b" initial");
    put_processor(out, u64::from(class.initial.number));
    out.put(b" processors");
    put_members(out, &class.members);
    out.put_byte(b'\n');
}

/// Adds the lines of classes, in their order.
pub fn put_classes(out: &mut Text, classes: &[NamedClass])
    ensures { Adds (spec.class_lines (map (λ c. c.name.items) classes.now) (map (λ c. c.class) classes.now)) out.old out.new }
{
    for named in classes {
        put_class_line(out, named.name.as_slice(), named.class);
    }
}

/// Adds the name of a class after a byte, where the two have the same processors and begin on the same one. Says what stands before the
/// next name.
fn put_if_alike(out: &mut Text, named: &NamedClass, class: Class, lead: u8) -> u8
    ensures text { Adds (spec.alike_text lead named.now.name.items (spec.is_alike named.now.class class)) out.old out.new }
    ensures lead { result ≡ spec.next_lead lead (spec.is_alike named.now.class class) }
{
    if named.class == class {
        out.put_byte(lead);
        out.put(named.name.as_slice());
        return b'|';
    }
    lead
}

/// Adds the names of those classes that have the same processors and begin on the same one, the first after a blank.
fn put_alike(out: &mut Text, classes: &[NamedClass], class: Class)
    ensures { Adds (spec.alike_from 32 (map (λ c. c.name.items) classes.now) (map (λ c. c.class) classes.now) class) out.old out.new }
{
    let mut lead = b' ';
    for named in classes {
        lead = put_if_alike(out, named, class, lead);
    }
}

/// Adds the class of an object after a blank.
#[tactic(auto, unfolding(crate::specs::Listing::Classes::class_field))]
pub fn put_class(out: &mut Text, config: &Config, class: Class)
    ensures { Adds (spec.class_field config.now class) out.old out.new }
{
    out.put(b" class");
    put_alike(out, config.classes(), class);
}
