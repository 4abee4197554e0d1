ghost use Rattle.std.specs.Prelude.{◌≡◌, ◌≤◌, OnOk, OnErr};
ghost use Rattle.bsv_io.specs.Faults.{MayFault};
ghost use Rattle.bsv_io.specs.Writing.{appended, AppendsPrefix};
ghost use Rattle.bsv_suite.specs.Texts.{section_text, told_of};

use crate::sections::Section;
use bsv_io::{Failed, Sink, put_all};
use itoa::Buffer;

/// Puts a section: a line with the name of its trace, the report, and a line with the number of the first bad line, where
/// there is one.
pub fn put_section<O: Sink>(section: &Section, out: &mut O) -> Result<(), Failed>
    ensures ok { OnOk result (O.writing out.new
        ≡ appended (section_text (told_of section.now)) (O.writing out.old)) }
    ensures prefix { AppendsPrefix (section_text (told_of section.now)) (O.writing out.old)
        (O.writing out.new) }
    ensures count { (O.writing out.old).faults ≤ (O.writing out.new).faults }
    ensures counted { OnErr result (MayFault (O.writing out.old).faults
        (O.writing out.new).faults) }
{
    let name = section.name.bytes();
    let text = section.text.as_slice();
    if section.bad == 0 {
        return put_all(out, &[b"trace ", name, b"\n", text]);
    }
    let mut digits = Buffer::new();
    let number = digits.format(section.bad).as_bytes();
    put_all(
        out,
        &[b"trace ", name, b"\n", text, b"trace line ", number, b"\n"],
    )
}
