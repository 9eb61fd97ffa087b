//! What a program and the tags say of a function, by its number.

ghost use Rattle.std.specs.Prelude.{◌≡◌, map, slice_get};
ghost use Rattle.std.specs.Option.{option_map};
ghost use Rattle.value_flows.specs.View.{func_of, param_tags_of, program_of, result_of, tags_of as tags_of_data};
ghost use Rattle.escape_graph.specs.Edges.{is_own, numbers, params_of, results_of, tags_of};
ghost use Rattle.escape_graph.specs.Targets.{result_at};

use base::{FuncId, SiteId};
use deref_walk::Loc;
use value_flows::{Func, FuncResult, ParamTags, Program, Tags};

/// The function with this number; nothing where there is none.
pub fn func_at<'a>(program: &'a Program, f: FuncId) -> Option<&'a Func>
    ensures { option_map (λ g. func_of g.now) result ≡ slice_get (program_of program.now).funcs f.0 }
{
    program.funcs.get(f.0 as usize)
}

/// The site of each parameter of a function, none for one without a name. Of a number that no function has: no parameters.
pub fn params_of<'a>(program: &'a Program, f: FuncId) -> &'a [Option<SiteId>]
    ensures { map (option_map (λ x. x.0)) result.now ≡ params_of (program_of program.now) f.0 }
{
    match func_at(program, f) {
        None => &[],
        Some(func) => &func.params,
    }
}

/// The results of a function. Of a number that no function has: no results.
pub fn results_of<'a>(program: &'a Program, f: FuncId) -> &'a [FuncResult]
    ensures { map result_of result.now ≡ results_of (program_of program.now) f.0 }
{
    match func_at(program, f) {
        None => &[],
        Some(func) => &func.results,
    }
}

/// The location of a function's result with this number: its site where it has a name.
pub fn result_at(f: FuncId, j: u32, which: FuncResult) -> Loc
    ensures { result ≡ result_at f.0 j (result_of which).site }
{
    match which.site {
        None => Loc::Result(f, j),
        Some(x) => Loc::Site(x),
    }
}

/// The tags of a function's parameters. Of a function that has none yet: no tags.
pub fn tags_of<'a>(tags: &'a Tags, f: FuncId) -> &'a [ParamTags]
    ensures { map param_tags_of result.now ≡ tags_of (tags_of_data tags.now) f.0 }
{
    match tags.funcs.get(f.0 as usize) {
        None => &[],
        Some(params) => params,
    }
}

/// Whether a function is among those of a batch.
pub fn is_own(batch: &[FuncId], f: FuncId) -> bool
    ensures { result ≡ is_own (numbers batch.now) f.0 }
{
    for g in batch {
        if g.0 == f.0 {
            return true;
        }
    }
    false
}
