//! What a file is if it is no image.

ghost use Rattle.job_parts.specs.Forms.{IsFormLine};

use basm::assemble;
use policy::Policy;
use std::alloc::Global;

/// The line that says that bytes are the text of a program, or a table that has a rule. There is none if they are
/// neither, or memory was refused.
pub fn form_line(alloc: Global, bytes: &[u8]) -> &'static str
    ensures { IsFormLine bytes.now result.now }
{
    let Ok(text) = str::from_utf8(bytes) else {
        return "";
    };
    if assemble(alloc, text).is_ok() {
        return "this is the text of a program\n";
    }
    match Policy::read(alloc, text) {
        Ok(table) if !table.rules().is_empty() => "this is a table of a policy\n",
        _ => "",
    }
}
