//! Rows that make a call that no command and no other row makes, on a worked row that names it.
#![tactic(auto)]

mod expressions;
mod lines;
mod places;
mod shapes;
mod values;

use rotor_base::Memory;
use std::alloc::Global;

/// The sources whose places are printed.
const SOURCES: [&str; 3] = [
    "let (a, b) = (1, 2)",
    "type r = { x : int } let x = 1 let v = { x }",
    "let f ~x ?(y = 1) = f ~x {M.z} + - y",
];

/// What a row prints. It is the name of the calls. `Memory` is the only error.
pub fn answer_row(alloc: Global, row: &str) -> Result<String, Memory> {
    let mut text = String::new(alloc);
    match row {
        "places" => {
            for source in SOURCES {
                places::add_places(alloc, &mut text, source)?;
            }
        }
        "variables" => places::add_variables(alloc, &mut text)?,
        "opened-expression" => expressions::add_opened_expression(alloc, &mut text)?,
        "turned-parameter" => shapes::add_turned_parameter(alloc, &mut text)?,
        "outside-unit" => shapes::add_outside_unit(alloc, &mut text)?,
        "scope" => shapes::add_scope(alloc, &mut text)?,
        _ => text.push_str("no row\n")?,
    }
    Ok(text)
}
