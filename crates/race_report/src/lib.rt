//! The report of races as JSON text.
#![tactic(auto)]

ghost use Rattle.std.specs.Prelude.{◌≡◌, codes, IfOk};
ghost use Rattle.serde_json.specs.Data.{array, object, member, no_members};
ghost use Rattle.serde_json.specs.View.{view, items_of};
ghost use Rattle.race_report.specs.Report.{numbers_of, report_text};

use serde_json::{Value, json};
use std::alloc::{AllocError, Global};

// The words as a JSON array of numbers.
fn numbers_value(alloc: Global, words: &[u64]) -> Result<Value, AllocError>
    ensures { IfOk result (λ value. view value ≡ array (items_of (numbers_of words.now))) }
{
    let mut numbers = Vec::new(alloc);
    'words: for &word in words {
        numbers.push(Value::from(word))?;
    }
    Ok(Value::Array(numbers))
}

// The report as JSON.
fn report_value(alloc: Global, words: &[u64]) -> Result<Value, AllocError>
    ensures { IfOk result (λ value. view value ≡ object (member (codes "races") (array (items_of (numbers_of words.now))) no_members)) }
{
    let numbers = numbers_value(alloc, words)?;
    json!(in alloc; {"races": numbers})
}

/// The text of the report of these words: `{"races":[A,B]}` with the words as numbers, and a newline.
pub fn report_text(alloc: Global, words: &[u64]) -> Result<Vec<u8>, AllocError>
    ensures { IfOk result (λ text. text.items ≡ report_text words.now) }
{
    let value = report_value(alloc, words)?;
    let mut text = value.to_string(alloc)?.into_bytes();
    text.push(b'\n')?;
    Ok(text)
}
