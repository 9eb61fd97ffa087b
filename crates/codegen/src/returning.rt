//! The code at both ends of a function: what it takes, and what it gives back.
ghost use Rattle.std.specs.Prelude.{◌≡◌, ◌+◌, ◌≤◌, ◌++◌, length, map, OnOk};
ghost use Rattle.typed.specs.Trees.{trees};
ghost use Rattle.typed_syntax.specs.Syntax.{all_wide, all_width, argument_words, each_width, result_words, type_in};
ghost use Rattle.typed.specs.View.{exs_of_values, program_of, site_in, site_numbers};
ghost use Rattle.expression_code.specs.Frame.{func_in, slots_in, IsLaid};
ghost use Rattle.codegen.specs.Frame.{param_code, Returns};
ghost use Rattle.expression_code.specs.Temps.{ExsFitIn};
ghost use Rattle.codegen.specs.Temps.{ParamFits, ParamsFitIn, SitesFit, ValuesFit, sites_words};
ghost use Rattle.program_code.specs.Code.{exs_code, leave_code, named_read_code, named_write_code, params_code, result_code, values_code, zeros_code};

use crate::births::emit_param;
use base::{NoMemory, SiteId, TypeId};
use expression_code::{Frame, born, emit_values, fetch_variable, land_variable, nth_words, put};
use frame_layout::{all_words, values_words};
use isa::{Direction, Instr};
use typed::{Func, Program, Values};

// A parameter, if it has a site, gets `n` incoming words from one on.
fn emit_taken(
    code: &mut Vec<Instr>,
    program: &Program,
    frame: &Frame,
    param: Option<SiteId>,
    n: u16,
    word: u16,
) -> Result<(), NoMemory>
    requires fits { ParamFits (slots_in program.now frame.now) frame.now.sites (site_in param) }
    requires frame { IsLaid program.now frame.now }
    ensures { OnOk result (code.new.items ≡ code.old.items
        ++ param_code (slots_in program.now frame.now) (site_in param) n word) }
{
    match param {
        Some(site) => emit_param(code, program, frame, site, n, word),
        None => Ok(()),
    }
}

/// Parameters of these types, those with sites, get the incoming words.
pub fn emit_params(
    code: &mut Vec<Instr>,
    program: &Program,
    frame: &Frame,
    params: &[Option<SiteId>],
    types: &[TypeId],
) -> Result<(), NoMemory>
    requires fits { ParamsFitIn (slots_in program.now frame.now) frame.now.sites
        (each_width (map (λ t. type_in (trees program.now.types) t.0) types.now)) (map site_in params.now) }
    requires small { all_width (map (λ t. type_in (trees program.now.types) t.0) types.now) ≤ 65535 }
    requires frame { IsLaid program.now frame.now }
    ensures { OnOk result (code.new.items ≡ code.old.items
        ++ params_code (slots_in program.now frame.now)
        (each_width (map (λ t. type_in (trees program.now.types) t.0) types.now)) (map site_in params.now) 0) }
{
    let mut word: u16 = 0;
    for (i, param) in params.iter().enumerate() {
        let n = nth_words(program, types, i) as u16;
        emit_taken(code, program, frame, *param, n, word)?;
        word += n;
    }
    Ok(())
}

/// Variables with zeros are born.
pub fn emit_zeros(
    code: &mut Vec<Instr>,
    program: &Program,
    frame: &Frame,
    sites: &[SiteId],
) -> Result<(), NoMemory>
    requires fits { SitesFit (slots_in program.now frame.now) frame.now.sites (site_numbers sites.now) }
    requires frame { IsLaid program.now frame.now }
    ensures { OnOk result (code.new.items ≡ code.old.items
        ++ zeros_code (slots_in program.now frame.now) (site_numbers sites.now)) }
{
    for site in sites {
        put(code, born(program, frame, *site))?;
    }
    Ok(())
}

// Results with names get the values in temps from h on.
fn emit_named_writes(
    code: &mut Vec<Instr>,
    program: &Program,
    frame: &Frame,
    sites: &[SiteId],
    h: u16,
) -> Result<(), NoMemory>
    requires fits { SitesFit (slots_in program.now frame.now) frame.now.sites (site_numbers sites.now) }
    requires temps { h + sites_words (slots_in program.now frame.now) (site_numbers sites.now) ≤ frame.now.temps }
    requires frame { IsLaid program.now frame.now }
    ensures { OnOk result (code.new.items ≡ code.old.items
        ++ named_write_code (slots_in program.now frame.now) (site_numbers sites.now) h) }
{
    let mut next = h;
    for site in sites {
        put(code, land_variable(program, frame, *site, next))?;
        next += frame.width_of(program, *site);
    }
    Ok(())
}

// The n words in slots from a on are the results from an incoming word on.
fn emit_results(code: &mut Vec<Instr>, n: u16, a: u16, word: u16) -> Result<(), NoMemory>
    ensures { OnOk result (code.new.items ≡ code.old.items ++ result_code n a word) }
{
    if n > 0 {
        put(
            code,
            Instr::Incoming {
                direction: Direction::FromSlots,
                a,
                b: word,
                n,
            },
        )?;
    }
    Ok(())
}

// Results with names are given back, from an incoming word on.
fn emit_named_reads(
    code: &mut Vec<Instr>,
    program: &Program,
    frame: &Frame,
    sites: &[SiteId],
    first: u16,
) -> Result<(), NoMemory>
    requires fits { SitesFit (slots_in program.now frame.now) frame.now.sites (site_numbers sites.now) }
    requires small { first + sites_words (slots_in program.now frame.now) (site_numbers sites.now) ≤ 65535 }
    requires frame { IsLaid program.now frame.now }
    ensures { OnOk result (code.new.items ≡ code.old.items
        ++ named_read_code (slots_in program.now frame.now) (site_numbers sites.now) first) }
{
    let temp = frame.temp(0);
    let mut word = first;
    for site in sites {
        let n = frame.width_of(program, *site);
        put(code, fetch_variable(program, frame, *site, 0))?;
        put(
            code,
            Instr::Incoming {
                direction: Direction::FromSlots,
                a: temp,
                b: word,
                n,
            },
        )?;
        word += n;
    }
    Ok(())
}

/// The function returns; what stands in results with names is given back.
pub fn emit_leave(
    code: &mut Vec<Instr>,
    program: &Program,
    frame: &Frame,
    func: &Func,
) -> Result<(), NoMemory>
    requires returns { Returns program.now frame.now (func_in program.now func.now) }
    requires frame { IsLaid program.now frame.now }
    ensures { OnOk result (code.new.items ≡ code.old.items
        ++ leave_code (slots_in program.now frame.now) (argument_words (func_in program.now func.now))
        (func_in program.now func.now).named) }
{
    let arguments = all_words(program, &func.param_types)? as u16;
    emit_named_reads(code, program, frame, &func.named, arguments)?;
    put(code, Instr::Return)?;
    Ok(())
}

// So many words of values in temps from h on become the results.
fn emit_given(
    code: &mut Vec<Instr>,
    program: &Program,
    frame: &Frame,
    func: &Func,
    words: u64,
    h: u16,
) -> Result<(), NoMemory>
    requires fits { ValuesFit (slots_in program.now frame.now) (result_words (func_in program.now func.now)) h words
        (func_in program.now func.now).named }
    requires returns { Returns program.now frame.now (func_in program.now func.now) }
    requires frame { IsLaid program.now frame.now }
    ensures { OnOk result (code.new.items ≡ code.old.items
        ++ values_code (slots_in program.now frame.now) (argument_words (func_in program.now func.now)) words
        (func_in program.now func.now).named h) }
{
    if func.named.is_empty() {
        let arguments = all_words(program, &func.param_types)? as u16;
        emit_results(code, words as u16, frame.temp(h), arguments)?;
    } else if words > 0 {
        emit_named_writes(code, program, frame, &func.named, h)?;
    }
    Ok(())
}

/// The function returns with values.
pub fn emit_return(
    code: &mut Vec<Instr>,
    program: &Program,
    frame: &Frame,
    func: &Func,
    values: &Values,
    h: u16,
) -> Result<(), NoMemory>
    requires fits { ExsFitIn (program_of program.now) (slots_in program.now frame.now) frame.now.sites h
        (exs_of_values values.now)
        × ValuesFit (slots_in program.now frame.now) (result_words (func_in program.now func.now)) h
        (all_wide (program_of program.now) (exs_of_values values.now)) (func_in program.now func.now).named }
    requires returns { Returns program.now frame.now (func_in program.now func.now) }
    requires frame { IsLaid program.now frame.now }
    ensures { OnOk result (code.new.items ≡ code.old.items
        ++ (exs_code (program_of program.now) (slots_in program.now frame.now) (exs_of_values values.now) h
        (length code.old.items)
        ++ (values_code (slots_in program.now frame.now) (argument_words (func_in program.now func.now))
        (all_wide (program_of program.now) (exs_of_values values.now)) (func_in program.now func.now).named h
        ++ leave_code (slots_in program.now frame.now) (argument_words (func_in program.now func.now))
        (func_in program.now func.now).named))) }
{
    emit_values(code, program, frame, values, h)?;
    emit_given(
        code,
        program,
        frame,
        func,
        values_words(program, values)?,
        h,
    )?;
    emit_leave(code, program, frame, func)?;
    Ok(())
}
