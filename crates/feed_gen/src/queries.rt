// The query file.

ghost use Rattle.std.specs.Prelude.{◌≡◌, ◌++◌, ◌<◌, IfOk, OnOk, string_bytes};
ghost use Rattle.feed_gen.specs.QueriesText as Texts;
ghost use Rattle.feed_gen.specs.Texts.{record_line};

use crate::draws::pick;
use flex_model::{NoMemory, Text};
use std::alloc::{AllocError, Global};

// When a query departs.
#[tactic(auto, unfolding(crate::specs::QueriesText::depart_text))]
fn depart(alloc: Global, later: u64) -> Result<String, AllocError>
    requires { later < 3 }
    ensures { IfOk result (λ text. string_bytes text ≡ Texts.depart_text later) }
{
    format!(in alloc; "2025-06-04T0{}:00:00Z", 7 + later)
}

// When all queries are asked.
#[tactic(auto, unfolding(crate::specs::QueriesText::now_text))]
fn now() -> &'static str
    ensures { result.now ≡ Texts.now_text }
{
    "2025-06-03T12:00:00Z"
}

// The line of a query.
fn query_line(alloc: Global, number: u32, i: u64) -> Result<String, AllocError>
    requires { i < 6 }
    ensures { IfOk result (λ text. string_bytes text ≡ record_line (Texts.query_record number i)) }
{
    let origin = pick(number, 900 + i, 10);
    let destination = pick(number, 920 + i, 40);
    let later = i % 3;
    let depart = depart(alloc, later)?;
    let now = now();
    let places = format!(in alloc; "q{i},p{origin},s{destination}")?;
    format!(in alloc; "{places},{depart},{now},{later},120\n")
}

/// The text of the query file.
#[tactic(auto, using(crate::proofs::LineFacts::line_steps), unfolding(crate::specs::QueriesText::queries_text, crate::specs::QueriesText::query_records, crate::specs::Texts::table_text))]
pub(crate) fn queries_text(alloc: Global, number: u32) -> Result<Text, NoMemory>
    ensures { IfOk result (λ text. text ≡ Texts.queries_text number) }
{
    let mut text = Text::new(alloc);
    text.append("query_id,origin,destination,depart,now,transfers,horizon\n")?;
    for i in 0..6 {
        text.append(query_line(alloc, number, i)?.as_str())?;
    }
    Ok(text)
}
