//! The lines of tags. An error is a want of memory.

ghost use Rattle.std.specs.Prelude.{◌≡◌, ◌<◌, ◌≤◌, ◌^◌, ◌++◌, length, map, OnOk, slice_get};
ghost use Rattle.std.specs.List.{Contains};
ghost use Rattle.value_flows.specs.declared.program.Func.{Func as AnyFunc};
ghost use Rattle.explain.specs.Lines.{result_flows, flows_to, tag_line, param_lines, params_lines, tags_in, func_lines, text_of};
ghost use Rattle.explain.specs.Passing.{AreFit};

use crate::lines::put_tag;
use base::SiteId;
use report_checks::TagFlow;
use std::io;
use value_flows::{Func, ParamTags, ResultTag, Tags};

/// Puts the lines of the tags to results after a text.
fn put_results(text: &mut Vec<u8>, func: usize, param: usize, tags: &[ResultTag]) -> io::Result<()>
    ensures text { OnOk result (text.new.items ≡ text.old.items
        ++ text_of (map (tag_line func param) (result_flows tags.now))) }
    ensures fits { OnOk result (func < 2 ^ 32 → param < 2 ^ 32
        → AreFit (map (tag_line func param) (result_flows tags.now))) }
{
    for tag in tags {
        put_tag(text, func, param, TagFlow::Result(tag.result, tag.by))?;
    }
    Ok(())
}

/// Puts the lines of a parameter's tags after a text.
fn put_tags(text: &mut Vec<u8>, func: usize, param: usize, tags: &ParamTags) -> io::Result<()>
    ensures text { OnOk result (text.new.items ≡ text.old.items
        ++ text_of (map (tag_line func param) (flows_to tags.now.heap tags.now.results.items))) }
    ensures fits { OnOk result (func < 2 ^ 32 → param < 2 ^ 32
        → AreFit (map (tag_line func param) (flows_to tags.now.heap tags.now.results.items))) }
{
    match tags.heap {
        Some(by) => put_tag(text, func, param, TagFlow::Heap(by))?,
        None if tags.results.is_empty() => return put_tag(text, func, param, TagFlow::Nowhere),
        None => {}
    }
    put_results(text, func, param, &tags.results)
}

/// Puts the lines of a parameter after a text. It has none where it has no name.
fn put_param(
    text: &mut Vec<u8>,
    func: usize,
    param: usize,
    site: Option<SiteId>,
    tags: &[ParamTags],
) -> io::Result<()>
    ensures text { OnOk result (text.new.items ≡ text.old.items
        ++ text_of (param_lines func param site (slice_get tags.now param))) }
    ensures fits { OnOk result (func < 2 ^ 32 → param < 2 ^ 32
        → AreFit (param_lines func param site (slice_get tags.now param))) }
{
    if site.is_none() {
        return Ok(());
    }
    match tags.get(param) {
        None => put_tag(text, func, param, TagFlow::Nowhere),
        Some(tags) => put_tags(text, func, param, tags),
    }
}

/// Puts the lines of a function's parameters after a text.
fn put_params(
    text: &mut Vec<u8>,
    func: usize,
    params: &[Option<SiteId>],
    tags: &[ParamTags],
) -> io::Result<()>
    ensures text { OnOk result (text.new.items ≡ text.old.items ++ text_of (params_lines func 0 params.now tags.now)) }
    ensures fits { OnOk result (func < 2 ^ 32 → length params.now ≤ 2 ^ 32
        → AreFit (params_lines func 0 params.now tags.now)) }
{
    for param in 0..params.len() {
        put_param(text, func, param, params[param], tags)?;
    }
    Ok(())
}

/// The tags of a function, if it was looked at, and else none.
fn tags_of(tags: &Tags, func: usize) -> &[ParamTags]
    ensures { result.now ≡ tags_in (slice_get tags.now.funcs.items func) }
{
    match tags.funcs.get(func) {
        None => &[],
        Some(tags) => tags,
    }
}

/// Puts the lines of all functions after a text.
pub(crate) fn put_funcs(text: &mut Vec<u8>, funcs: &[Func], tags: &Tags) -> io::Result<()>
    ensures text { OnOk result (text.new.items ≡ text.old.items ++ text_of (func_lines 0 funcs.now tags.now.funcs.items)) }
    ensures fits { OnOk result (length funcs.now ≤ 2 ^ 32
        → ((f : AnyFunc) → Contains funcs.now f → length f.params.items ≤ 2 ^ 32)
        → AreFit (func_lines 0 funcs.now tags.now.funcs.items)) }
{
    for func in 0..funcs.len() {
        let own = tags_of(tags, func);
        put_params(text, func, &funcs[func].params, own)?;
    }
    Ok(())
}
