//! The words of values by their places among others.
ghost use Rattle.std.specs.Prelude.{◌≡◌, map, slice_get, slice_index, IfOk};
ghost use Rattle.typed.specs.Trees.{trees};
ghost use Rattle.typed_syntax.specs.Syntax.{each_width, result_widths, type_in, value_widths};
ghost use Rattle.typed.specs.View.{exs_of, exs_of_values, program_of};

use base::{FuncId, NoMemory, TypeId};
use frame_layout::expr_words;
use typed::{Expr, Program, Values};

/// The words of a value of one of these types; 0 where there are fewer.
pub fn nth_words(program: &Program, types: &[TypeId], i: usize) -> u64
    ensures { result ≡ slice_index (each_width (map (λ t. type_in (trees program.now.types) t.0) types.now)) i }
{
    match types.get(i) {
        Some(type_id) => u64::from(program.types.width(*type_id)),
        None => 0,
    }
}

// The words of one of some expressions' values.
fn nth_expr_words(program: &Program, es: &[Expr], i: usize) -> Result<u64, NoMemory>
    ensures { IfOk result (λ n. n ≡ slice_index (value_widths (program_of program.now) (exs_of es.now)) i) }
{
    match es.get(i) {
        Some(e) => expr_words(program, e),
        None => Ok(0),
    }
}

// The words of one of a function's results; 0 where there are fewer.
fn nth_result_words(program: &Program, f: FuncId, i: usize) -> u64
    ensures { result ≡ slice_index (result_widths (slice_get (program_of program.now).funcs f.0)) i }
{
    match program.funcs.get(f.0 as usize) {
        Some(func) => nth_words(program, &func.results, i),
        None => 0,
    }
}

/// The words of one of some values; 0 where there are fewer.
#[tactic(auto, using(typed::proofs::Rows::expr_rows))]
pub fn value_words(program: &Program, values: &Values, i: usize) -> Result<u64, NoMemory>
    ensures { IfOk result (λ n. n ≡ slice_index (value_widths (program_of program.now) (exs_of_values values.now)) i) }
{
    match values {
        Values::Each(es) => nth_expr_words(program, es, i),
        Values::Results(f, _) => Ok(nth_result_words(program, *f, i)),
        Values::ReadInt => Ok(if i < 2 { 1 } else { 0 }),
    }
}
