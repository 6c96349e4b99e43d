// The text of a list of faults.

ghost use Rattle.std.specs.Prelude.{◌≡◌, ◌++◌, IfOk, OnOk};
ghost use Rattle.flexplan.specs.Faults.{line_of, text_of};

use feed_meaning::{code_name, file_name};
use field_text::write_number;
use flex_model::{Fault, NoMemory, Text};
use std::alloc::Global;

// Appends the line of a fault.
fn write_fault(fault: &Fault, text: &mut Text) -> Result<(), NoMemory>
    ensures { OnOk result (text.new ≡ text.old ++ line_of fault.now) }
{
    text.append("fault ")?;
    text.append(file_name(fault.file))?;
    text.append(" ")?;
    write_number(fault.row, text)?;
    text.append(" ")?;
    text.append(code_name(fault.code))?;
    text.append("\n")
}

/// The lines of the faults.
pub fn write_faults(alloc: Global, faults: &[Fault]) -> Result<Text, NoMemory>
    ensures { IfOk result (λ text. text ≡ text_of faults.now) }
{
    let mut text = Text::new(alloc);
    for fault in faults {
        write_fault(fault, &mut text)?;
    }
    Ok(text)
}
