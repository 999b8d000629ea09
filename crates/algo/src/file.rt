//! From a text to its algorithm.

ghost use Rattle.std.specs.Prelude.{◌≡◌, ◌∷◌, ◌↔◌, map, All, IfOk, IfErr, IfSome, IsTrue, MatchOption, string_bytes, length};
ghost use Rattle.std.specs.Option.{option_map};
ghost use Rattle.meaning.specs.Image.View.{AreExtents, IsExtent, IsSampleType, shape_of};
ghost use Rattle.meaning.specs.Conditions.{AreDistinct, function_named};
ghost use Rattle.expr.specs.Statements.View.{extent_text, file_text, input_text, output_text, statement_text};
ghost use Rattle.algo.specs.declared.error.Code.{Code};
ghost use Rattle.algo.specs.declared.error.AlgoError.TheVariants.{Memory};
ghost use Rattle.algo.specs.Parts.{names_of, functions_of, output_type};
ghost use Rattle.algo.specs.Context.{function_names, AreFunctions, only_input};
ghost use Rattle.algo.specs.Saying.{says, IsWellFormed, names_declared, HasSmallExpressions};
ghost use Rattle.algo.specs.Keeping.{Breaks, KeepsInput, KeepsOutput, FileBreaks};
ghost use Rattle.algo.specs.Faults.{BadSizeAt, InputFaultAt, Tells, TellsOfFile, OutputFaultAt};
ghost use Rattle.algo.specs.Refusal.{IsFileRead};
ghost use Rattle.algo.specs.View.{algorithm_of};

use crate::algorithm::Algo;
use crate::checks::refuse;
use crate::error::{AlgoError, Code};
use crate::function::{Function, Port};
use crate::scoping::same_name;
use crate::statement::read_functions;
use expr::statements::{Extent, File, InputStatement, Named, OutputStatement, Statement};
use indexmap::IndexMap;
use meaning::image::Shape;
use numeric::Ty;
use std::alloc::{AllocError, Global};
use tree::token::Span;

// Whether images have samples of this type.
fn is_sample_type(ty: Ty) -> bool
    ensures { IsTrue result ↔ IsSampleType ty }
{
    matches!(ty, Ty::U8 | Ty::U16)
}

// The place of a width or a height that no image has.
fn misfit(extent: &Extent) -> Option<Span>
    ensures fits { MatchOption result (IsExtent extent.now.number) (λ _. ¬ IsExtent extent.now.number) }
    ensures place { IfSome result (λ at. at ≡ extent.now.span) }
{
    if (1..=8192).contains(&extent.number) {
        None
    } else {
        Some(extent.span)
    }
}

// The place of the first extent that passes the limits, and the name's where there is none at all.
fn extents_fault(extents: &[Extent], name: &Named) -> Option<Span>
    ensures fit { MatchOption result (AreExtents (map extent_text extents.now)) (λ _. ¬ AreExtents (map extent_text extents.now)) }
    ensures place { IfSome result (BadSizeAt name.now extents.now) }
{
    match extents {
        [width] => misfit(width),
        [width, height] => misfit(width).or(misfit(height)),
        [width, height, colours] => misfit(width).or(misfit(height)).or(if colours.number == 3 {
            None
        } else {
            Some(colours.span)
        }),
        [_, _, _, fourth, ..] => Some(fourth.span),
        [] => Some(name.span),
    }
}

// The numbers of extents.
fn numbers(alloc: Global, extents: &[Extent]) -> Result<Vec<u32>, AllocError>
    ensures { IfOk result (λ numbers. numbers.items ≡ map extent_text extents.now) }
{
    extents.iter().map(|extent| extent.number).collect(alloc)
}

// The input that a statement says.
fn read_input(alloc: Global, statement: &InputStatement) -> Result<Port, AlgoError>
    ensures name { IfOk result (λ p. string_bytes p.name ≡ (input_text statement.now).name) }
    ensures ty { IfOk result (λ p. p.shape.ty ≡ statement.now.ty) }
    ensures extents { IfOk result (λ p. p.shape.extents.items ≡ (input_text statement.now).extents) }
    ensures kept { IfOk result (λ _. AreExtents (input_text statement.now).extents × IsSampleType statement.now.ty) }
    ensures refused { IfErr result (Breaks (λ code. KeepsInput code (input_text statement.now))) }
    ensures place { IfErr result (Tells (InputFaultAt statement.now)) }
{
    let fault = extents_fault(&statement.extents, &statement.name);
    refuse(fault, Code::Limit)?;
    let fault = if is_sample_type(statement.ty) {
        None
    } else {
        Some(statement.ty_span)
    };
    refuse(fault, Code::SampleType)?;
    Ok(Port {
        name: statement.name.name.clone()?,
        shape: Shape {
            ty: statement.ty,
            extents: numbers(alloc, &statement.extents)?,
        },
    })
}

// The type and the number of variables of the function of this name.
fn function_named(functions: &[(String, Function)], name: &str) -> Option<(Ty, usize)>
    ensures { result ≡ option_map (λ f. (f.ty, length f.variables)) (function_named (functions_of functions.now) name.now) }
{
    for (known, function) in functions {
        if same_name(known.as_str(), name) {
            return Some((function.ty, function.variables.len()));
        }
    }
    None
}

// The output that a statement says, over these functions.
fn read_output(
    alloc: Global,
    functions: &[(String, Function)],
    statement: &OutputStatement,
) -> Result<Port, AlgoError>
    ensures name { IfOk result (λ p. string_bytes p.name ≡ (output_text statement.now).name) }
    ensures extents { IfOk result (λ p. p.shape.extents.items ≡ (output_text statement.now).extents) }
    ensures ty { IfOk result (λ p. IfSome (function_named (functions_of functions.now) (output_text statement.now).name) (λ f. p.shape.ty ≡ f.ty)) }
    ensures kept { IfOk result (λ _. (code : Code) → KeepsOutput (functions_of functions.now) code (output_text statement.now)) }
    ensures refused { IfErr result (Breaks (λ code. KeepsOutput (functions_of functions.now) code (output_text statement.now))) }
    ensures place { IfErr result (Tells (OutputFaultAt (functions_of functions.now) statement.now)) }
{
    let name = &statement.name;
    let Some((ty, count)) = function_named(functions, name.name.as_str()) else {
        return Err(AlgoError::Refused {
            code: Code::Name,
            span: name.span,
        });
    };
    if statement.extents.len() != count {
        return Err(AlgoError::Refused {
            code: Code::IndexCount,
            span: name.span,
        });
    }
    refuse(extents_fault(&statement.extents, name), Code::Limit)?;
    if !is_sample_type(ty) {
        return Err(AlgoError::Refused {
            code: Code::SampleType,
            span: name.span,
        });
    }
    Ok(Port {
        name: name.name.clone()?,
        shape: Shape {
            ty,
            extents: numbers(alloc, &statement.extents)?,
        },
    })
}

// The names of the input and of all functions of the text.
fn declared(alloc: Global, file: &File) -> Result<Vec<String>, AllocError>
    ensures { IfOk result (λ names. names_of names.items ≡ names_declared (file_text file.now)) }
{
    let mut names = Vec::new(alloc);
    names.push(file.input.name.name.clone()?)?;
    for statement in &file.statements {
        if let Statement::Function(statement) = statement {
            names.push(statement.name.name.clone()?)?;
        }
    }
    Ok(names)
}

// The functions by their names, in the same order.
fn by_name(
    alloc: Global,
    functions: Vec<(String, Function)>,
) -> Result<IndexMap<String, Function>, AlgoError>
    requires { AreDistinct (function_names (functions_of functions.items)) }
    ensures entries { IfOk result (λ map. map.entries ≡ functions.items) }
    ensures memory { IfErr result (λ e. e ≡ Memory) }
{
    let mut map = IndexMap::new(alloc);
    for (name, function) in functions {
        map.insert(name, function)?;
    }
    Ok(map)
}

/// The algorithm that the statements of a text say.
pub(crate) fn read_file(alloc: Global, file: &File) -> Result<Algo, AlgoError>
    requires small { All HasSmallExpressions (map statement_text file.now.statements.items) }
    requires read { IsFileRead (file_text file.now) }
    ensures said { IfOk result (λ a. algorithm_of a ≡ says (file_text file.now)) }
    ensures kept { IfOk result (λ _. IsWellFormed (file_text file.now)) }
    ensures refused { IfErr result (FileBreaks (file_text file.now)) }
    ensures place { IfErr result (TellsOfFile file.now) }
{
    let input = read_input(alloc, &file.input)?;
    let declared = declared(alloc, file)?;
    let functions = read_functions(alloc, &input, &declared, &file.statements)?;
    let output = read_output(alloc, &functions, &file.output)?;
    Ok(Algo {
        name: file.name.name.clone()?,
        input,
        functions: by_name(alloc, functions)?,
        output,
    })
}
