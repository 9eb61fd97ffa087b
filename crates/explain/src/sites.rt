//! The lines of sites. An error is a want of memory.

ghost use Rattle.std.specs.Prelude.{◌≡◌, ◌<◌, ◌≤◌, ◌^◌, ◌++◌, map, length, OnOk, slice_index_or, vec_len};
ghost use Rattle.param_tags.specs.Heap.{placed_at};
ghost use Rattle.explain.specs.Lines.{Named, site_line, step_line, path_at, path_lines, site_lines, text_of};
ghost use Rattle.explain.specs.Passing.{AreFit};

use crate::lines::{put_site, put_step};
use crate::names::SiteName;
use deref_walk::Step;
use param_tags::Solved;
use std::io;
use value_flows::Placed;

/// Puts the lines of steps after a text.
fn put_steps(text: &mut Vec<u8>, steps: &[Step]) -> io::Result<()>
    ensures text { OnOk result (text.new.items ≡ text.old.items ++ text_of (map step_line steps.now)) }
    ensures fits { OnOk result (AreFit (map step_line steps.now)) }
{
    for step in steps {
        put_step(text, step)?;
    }
    Ok(())
}

/// Puts the steps of the path to a site after a text, where a flow put the site on the heap.
fn put_path(text: &mut Vec<u8>, solved: &Solved, k: usize) -> io::Result<()>
    requires placed { k < vec_len solved.now.placed }
    requires paths { k < vec_len solved.now.paths }
    ensures text { OnOk result (text.new.items ≡ text.old.items
        ++ text_of (path_lines (placed_at solved.now.placed.items k) (path_at solved.now.paths.items k))) }
    ensures fits { OnOk result (AreFit (path_lines (placed_at solved.now.placed.items k) (path_at solved.now.paths.items k))) }
{
    match (solved.placed[k], &solved.paths[k]) {
        (Placed::Flow(_), Some(steps)) => put_steps(text, steps),
        _ => Ok(()),
    }
}

/// Puts the lines of all sites after a text, each with the steps of its path.
pub(crate) fn put_sites(text: &mut Vec<u8>, names: &[SiteName], solved: &Solved) -> io::Result<()>
    requires placed { vec_len solved.now.placed ≡ length names.now }
    requires paths { vec_len solved.now.paths ≡ length names.now }
    ensures text { OnOk result (text.new.items ≡ text.old.items
        ++ text_of (site_lines 0 names.now solved.now.placed.items solved.now.paths.items)) }
    ensures fits { OnOk result (length names.now ≤ 2 ^ 32
        → AreFit (site_lines 0 names.now solved.now.placed.items solved.now.paths.items)) }
{
    for k in 0..names.len() {
        put_site(text, k, &names[k], solved.placed[k])?;
        put_path(text, solved, k)?;
    }
    Ok(())
}
