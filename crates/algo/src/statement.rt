//! From the statements of a text to the functions that they say.

ghost use Rattle.std.specs.Prelude.{◌≡◌, ◌++◌, ◌∷◌, [], map, length, vec_len, string_bytes, All, IfOk, IfErr, IfSome, OnOk, slice_get, MatchOption, MatchResult};
ghost use Rattle.tree.specs.Term.{term_of, list_terms};
ghost use Rattle.meaning.specs.Names.{is_among};
ghost use Rattle.meaning.specs.Conditions.{callable};
ghost use Rattle.expr.specs.Statements.View.{named_text, function_text, statement_text, update_text};
ghost use Rattle.expr.specs.Statements.Text.{update};
ghost use Rattle.algo.specs.declared.error.Code.{Code};
ghost use Rattle.algo.specs.declared.error.AlgoError.TheVariants.{Memory};
ghost use Rattle.algo.specs.Parts.{names_of, function_of, functions_of, change_of};
ghost use Rattle.algo.specs.Context.{only_input, function_names, AreFunctions, HasType};
ghost use Rattle.algo.specs.Saying.{function_said, change_said, after_statement, functions_said, with_update, FollowsFunction, FollowFunctions, HasSmallExpressions};
ghost use Rattle.algo.specs.Keeping.{KeepsFunction, KeepsStatement, StatementBreaks, Breaks, CallsKnown, CallsCounted, FunctionNames, FunctionLimits};
ghost use Rattle.algo.specs.Faults.{FunctionFaultAt, FunctionLimitAt, FunctionNameAt, Tells, TellsOfStatement, StatementFaultAt, FirstUpdateAt, LastUpdateAt, UpdateStatementFaultAt};

use crate::checks::{
    Condition, Context, CountedCalls, KnownCalls, KnownNames, Scope, refuse, typed,
};
use crate::error::{AlgoError, Code};
use crate::function::{Function, Port, Update};
use crate::scoping::{first_double, same_name};
use crate::update::read_update;
use expr::statements::{FunctionStatement, Named, Statement, UpdateStatement};
use std::alloc::{AllocError, Global};
use tree::copy;
use tree::token::Span;

// Whether the name is the input's or that of one of the functions.
fn is_taken(input: &Port, functions: &[(String, Function)], name: &str) -> bool
    ensures { result ≡ is_among (string_bytes input.now.name ∷ function_names (functions_of functions.now)) name.now }
{
    if same_name(input.name.as_str(), name) {
        return true;
    }
    for (known, _) in functions {
        if same_name(known.as_str(), name) {
            return true;
        }
    }
    false
}

// Where a function's statement has a name that is unknown or doubled.
fn names_fault(
    context: &Context<'_>,
    variables: &[String],
    statement: &FunctionStatement,
) -> Option<Span>
    requires { names_of variables.now ≡ map named_text statement.now.variables.items }
    ensures kept { MatchOption result
        (FunctionNames (only_input context.now.input.now) (names_of context.now.declared.now) (functions_of context.now.functions.now) (function_text statement.now))
        (λ _. ¬ FunctionNames (only_input context.now.input.now) (names_of context.now.declared.now) (functions_of context.now.functions.now) (function_text statement.now)) }
    ensures place { IfSome result (FunctionNameAt (only_input context.now.input.now) (names_of context.now.declared.now) (functions_of context.now.functions.now) statement.now) }
{
    if is_taken(
        context.input,
        context.functions,
        statement.name.name.as_str(),
    ) {
        return Some(statement.name.span);
    }
    if let Some(i) = first_double(variables) {
        return Some(place_of(&statement.variables, i, statement.name.span));
    }
    let known = KnownNames {
        variables,
        declared: context.declared,
    };
    known.fault(&statement.value)
}

// The place of one of the names.
fn place_of(names: &[Named], i: usize, otherwise: Span) -> Span
    ensures { MatchOption (slice_get names.now i) (result ≡ otherwise) (λ name. result ≡ name.span) }
{
    match names.get(i) {
        Some(name) => name.span,
        None => otherwise,
    }
}

// Where a function's statement passes a limit.
fn limits_fault(context: &Context<'_>, statement: &FunctionStatement) -> Option<Span>
    ensures kept { MatchOption result
        (FunctionLimits (only_input context.now.input.now) (names_of context.now.declared.now) (functions_of context.now.functions.now) (function_text statement.now))
        (λ _. ¬ FunctionLimits (only_input context.now.input.now) (names_of context.now.declared.now) (functions_of context.now.functions.now) (function_text statement.now)) }
    ensures place { IfSome result (FunctionLimitAt (only_input context.now.input.now) (names_of context.now.declared.now) (functions_of context.now.functions.now) statement.now) }
{
    if context.functions.len() >= 64 {
        return Some(statement.name.span);
    }
    match statement.variables.as_slice() {
        [] => Some(statement.name.span),
        [_, _, _, fourth, ..] => Some(fourth.span),
        _ => None,
    }
}

// Ok where a function's statement keeps each condition. Else the first that it breaks.
fn check_function(
    context: &Context<'_>,
    variables: &[String],
    statement: &FunctionStatement,
) -> Result<(), AlgoError>
    requires { names_of variables.now ≡ map named_text statement.now.variables.items }
    ensures kept { MatchResult result
        (λ _. FunctionNames (only_input context.now.input.now) (names_of context.now.declared.now) (functions_of context.now.functions.now) (function_text statement.now)
        × CallsKnown (callable (only_input context.now.input.now) (functions_of context.now.functions.now)) (term_of statement.now.value)
        × CallsCounted (callable (only_input context.now.input.now) (functions_of context.now.functions.now)) (term_of statement.now.value)
        × HasType variables.now context.now.functions.now context.now.input.now statement.now.ty (term_of statement.now.value)
        × FunctionLimits (only_input context.now.input.now) (names_of context.now.declared.now) (functions_of context.now.functions.now) (function_text statement.now))
        (Breaks (λ code. KeepsFunction (only_input context.now.input.now) (names_of context.now.declared.now) (functions_of context.now.functions.now) code (function_text statement.now))) }
    ensures place { IfErr result (Tells (FunctionFaultAt (only_input context.now.input.now) (names_of context.now.declared.now) (functions_of context.now.functions.now) statement.now)) }
{
    let Context {
        input,
        functions,
        ..
    } = context;
    let value = &statement.value;
    let scope = Scope {
        variables,
        functions,
        input,
    };
    refuse(names_fault(context, variables, statement), Code::Name)?;
    refuse(
        KnownCalls { functions, input }.fault(value),
        Code::LaterCall,
    )?;
    refuse(
        CountedCalls { functions, input }.fault(value),
        Code::IndexCount,
    )?;
    if let Err(span) = typed(value, &scope, statement.ty) {
        return Err(AlgoError::Refused {
            code: Code::TypesDiffer,
            span,
        });
    }
    refuse(limits_fault(context, statement), Code::Limit)?;
    Ok(())
}

// The function that a statement says, with its name, where the statement keeps each condition.
fn read_function(
    alloc: Global,
    context: &Context<'_>,
    statement: &FunctionStatement,
) -> Result<(String, Function), AlgoError>
    ensures said { IfOk result (λ e. function_of e ≡ function_said (function_text statement.now)) }
    ensures kept { IfOk result (λ _. (code : Code) → KeepsFunction (only_input context.now.input.now) (names_of context.now.declared.now) (functions_of context.now.functions.now) code (function_text statement.now)) }
    ensures refused { IfErr result (Breaks (λ code. KeepsFunction (only_input context.now.input.now) (names_of context.now.declared.now) (functions_of context.now.functions.now) code (function_text statement.now))) }
    ensures place { IfErr result (Tells (FunctionFaultAt (only_input context.now.input.now) (names_of context.now.declared.now) (functions_of context.now.functions.now) statement.now)) }
{
    let variables = names(alloc, &statement.variables)?;
    check_function(context, &variables, statement)?;
    let function = Function {
        ty: statement.ty,
        variables,
        value: copy(alloc, &statement.value)?,
        updates: Vec::new(alloc),
    };
    Ok((statement.name.name.clone()?, function))
}

// The names without their places.
fn names(alloc: Global, named: &[Named]) -> Result<Vec<String>, AllocError>
    ensures names { IfOk result (λ names. names_of names.items ≡ map named_text named.now) }
    ensures count { IfOk result (λ names. vec_len names ≡ length named.now) }
{
    let mut names = Vec::new(alloc);
    for name in named {
        names.push(name.name.clone()?)?;
    }
    Ok(names)
}

// The update that a statement says of the last function, where the statement keeps each condition.
fn next_update(
    alloc: Global,
    context: &Context<'_>,
    statement: &UpdateStatement,
) -> Result<Update, AlgoError>
    requires functions { AreFunctions (only_input context.now.input.now) (functions_of context.now.functions.now) }
    requires small { HasSmallExpressions (update (update_text statement.now)) }
    ensures said { IfOk result (λ u. change_of u ≡ change_said (update_text statement.now)) }
    ensures functions { OnOk result (AreFunctions (only_input context.now.input.now) (with_update (functions_of context.now.functions.now) (change_said (update_text statement.now)))) }
    ensures follows { OnOk result (FollowsFunction (functions_of context.now.functions.now) (update (update_text statement.now))) }
    ensures refused { IfErr result (Breaks (λ code. KeepsStatement (only_input context.now.input.now) (names_of context.now.declared.now) (functions_of context.now.functions.now) code (update (update_text statement.now)))) }
    ensures place { IfErr result (Tells (UpdateStatementFaultAt (only_input context.now.input.now) (names_of context.now.declared.now) (functions_of context.now.functions.now) statement.now)) }
{
    match context.functions.split_last() {
        Some((own, before)) => match read_update(alloc, context, before, own, statement) {
            Ok(update) => Ok(update),
            Err(error) => Err(error),
        },
        None => Err(AlgoError::Refused {
            code: Code::Name,
            span: statement.name.span,
        }),
    }
}

// Gives the last function one more update.
fn add_update(functions: &mut Vec<(String, Function)>, update: Update) -> Result<(), AlgoError>
    ensures added { OnOk result (functions_of functions.new.items ≡ with_update (functions_of functions.old.items) (change_of update)) }
    ensures memory { IfErr result (λ e. e ≡ Memory) }
{
    if let Some((name, mut function)) = functions.pop() {
        function.updates.push(update)?;
        functions.push((name, function))?;
    }
    Ok(())
}

// Adds what a statement says to the functions, where the statement keeps each condition.
fn read_statement(
    alloc: Global,
    input: &Port,
    declared: &[String],
    functions: &mut Vec<(String, Function)>,
    statement: &Statement,
) -> Result<(), AlgoError>
    requires functions { AreFunctions (only_input input.now) (functions_of functions.old.items) }
    requires small { HasSmallExpressions (statement_text statement.now) }
    ensures said { OnOk result (functions_of functions.new.items ≡ after_statement (functions_of functions.old.items) (statement_text statement.now)) }
    ensures functions { OnOk result (AreFunctions (only_input input.now) (functions_of functions.new.items)) }
    ensures follows { OnOk result (FollowsFunction (functions_of functions.old.items) (statement_text statement.now)) }
    ensures refused { IfErr result (Breaks (λ code. KeepsStatement (only_input input.now) (names_of declared.now) (functions_of functions.old.items) code (statement_text statement.now))) }
    ensures place { IfErr result (Tells (StatementFaultAt (only_input input.now) (names_of declared.now) (functions_of functions.old.items) statement.now)) }
{
    let context = Context {
        input,
        declared,
        functions: functions.as_slice(),
    };
    match statement {
        Statement::Function(statement) => {
            let entry = read_function(alloc, &context, statement)?;
            functions.push(entry)?;
            Ok(())
        }
        Statement::Update(statement) => {
            let update = next_update(alloc, &context, statement)?;
            add_update(functions, update)
        }
    }
}

/// The functions that the statements say, where each statement keeps its conditions.
pub(crate) fn read_functions(
    alloc: Global,
    input: &Port,
    declared: &[String],
    statements: &[Statement],
) -> Result<Vec<(String, Function)>, AlgoError>
    requires small { All HasSmallExpressions (map statement_text statements.now) }
    ensures said { IfOk result (λ fs. functions_of fs.items ≡ functions_said (map statement_text statements.now)) }
    ensures functions { IfOk result (λ fs. AreFunctions (only_input input.now) (functions_of fs.items)) }
    ensures follow { OnOk result (FollowFunctions (map statement_text statements.now)) }
    ensures refused { IfErr result (StatementBreaks (only_input input.now) (names_of declared.now) (map statement_text statements.now)) }
    ensures place { IfErr result (TellsOfStatement (only_input input.now) (names_of declared.now) statements.now) }
{
    let mut functions = Vec::new(alloc);
    for statement in statements {
        if let Err(error) = read_statement(alloc, input, declared, &mut functions, statement) {
            return Err(error);
        }
    }
    Ok(functions)
}
