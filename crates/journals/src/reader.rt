// A whole journal, line by line.
ghost use Rattle.std.specs.Prelude.{IfOk};
ghost use Rattle.journals.specs.Reading.{Journal};

use super::calls::call_of;
use std::alloc::Global;
use texts::{Fault, Line};
use yard::Call;

// A call of the journal, with the line that says it.
#[derive(Clone, Copy)]
pub struct Entry {
    pub line: usize,
    pub call: Call,
}

// The calls of a journal in their order, or its first fault.
pub fn read(heap: Global, text: &str) -> Result<Vec<Entry>, Fault>
    ensures { IfOk result (λ v. Journal text.now v.items) }
{
    let mut entries = Vec::new(heap);
    for (index, line) in text.lines().enumerate() {
        let number = index + 1;
        if let Some(call) = call_of(&mut Line::new(heap, number, line))? {
            entries.push(Entry { line: number, call })?;
        }
    }
    Ok(entries)
}
