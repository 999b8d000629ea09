//! An algorithm.

ghost use Rattle.std.specs.Prelude.{◌≡◌};
ghost use Rattle.meaning.specs.Conditions.{IsAlgorithm};
ghost use Rattle.meaning.proofs.Props.{IsAlgorithm-prop};
ghost use Rattle.algo.specs.Parts.{algorithm_from, output_type};
ghost use Rattle.algo.specs.Refusal.{IsRead};

use crate::error::AlgoError;
use crate::file::read_file;
use crate::function::{Definition, Function, Port};
use indexmap::IndexMap;
use std::alloc::Global;

/// An algorithm: one input, functions in the order of their declaration, and the output, which is one of them.
/// Every algorithm is well formed: calls go to the input and to earlier functions, types agree, and it keeps the limits.
/// And it was read: some text says it.
#[derive(Drop)]
pub struct Algo {
    pub(crate) name: String,
    pub(crate) input: Port,
    pub(crate) functions: IndexMap<String, Function>,
    pub(crate) output: Port,
    pub ghost well_formed: { IsAlgorithm (algorithm_from name input functions.entries output) } by { IsAlgorithm-prop (algorithm_from name input functions.entries output) },
    pub ghost output_typed: { output.shape.ty ≡ output_type (algorithm_from name input functions.entries output) },
    pub ghost read: { IsRead (algorithm_from name input functions.entries output) },
}

impl Algo {
    ghost use Rattle.std.specs.Prelude.{string_bytes, IfOk, IfErr, IfSome, slice_get};
    ghost use Rattle.meaning.specs.Image.View.{shape_of, IsShape};
    ghost use Rattle.algo.specs.Parts.{functions_of, input_frame, output_frame};
    ghost use Rattle.algo.specs.View.{algorithm_of, HasDefinition};
    ghost use Rattle.algo.specs.Definitions.{IsDefinition};
    ghost use Rattle.algo.specs.Words.{IsNamed};
    ghost use Rattle.algo.specs.Written.{AreExpressionsWritten};
    ghost use Rattle.algo.specs.Refusal.{IsAlgorithmText, IsRefusedText, IsRefusedPlace, IsNoAlgorithm};

    /// Reads an algorithm text.
    ///
    /// # Errors
    /// First what is wrong with the text's form: `TooLarge` for a text of more than 65,536 bytes, `BadToken`, and then,
    /// while the tokens are read, `BadForm` and `TooLarge` for a name or an expression. Then what a statement does not
    /// keep: the input, then the functions and updates in their order, then the output. Of one statement, in this order:
    /// `Name`, `LaterCall`, `IndexCount`, `MovedVariable`, `NoDomain`, `TypesDiffer`, `Limit` and `SampleType`.
    /// The span is that of what is at fault: the name, the call (of `LaterCall` its name), the left index, the word
    /// `update`, the expression, the number, the range or the type.
    /// `Memory` where memory runs out.
    pub fn read(alloc: Global, text: &str) -> Result<Algo, AlgoError>
        ensures said { IfOk result (λ a. IsAlgorithmText text.now (algorithm_of a)) }
        ensures refused { IfErr result (IsRefusedText text.now) }
        // What the code says is broken is broken at the place; where a call's name does it, the bytes there are that name.
        ensures place { IfErr result (IsRefusedPlace text.now) }
        // A text is refused only where it is no algorithm.
        ensures only { IfErr result (IsNoAlgorithm text.now) }
    {
        let file = expr::statements::read(alloc, text)?;
        read_file(alloc, &file)
    }

    /// The pipeline's name.
    pub fn name(&self) -> &str
        ensures { result.now ≡ (algorithm_of self.now).name }
    {
        self.name.as_str()
    }

    /// The functions by name, in the order of their declaration.
    pub fn funcs(&self) -> &IndexMap<String, Function>
        ensures { functions_of result.now.entries ≡ (algorithm_of self.now).functions }
    {
        &self.functions
    }

    /// The input's name, type and extents.
    pub fn input(&self) -> &Port
        ensures name { string_bytes result.now.name ≡ (algorithm_of self.now).input }
        ensures shape { shape_of result.now.shape ≡ input_frame (algorithm_of self.now) }
        ensures valid { IsShape (shape_of result.now.shape) }
    {
        &self.input
    }

    /// The name of the output's function, the type of its values, and the extents over which it is wanted.
    pub fn output(&self) -> &Port
        ensures name { string_bytes result.now.name ≡ (algorithm_of self.now).output }
        ensures shape { shape_of result.now.shape ≡ output_frame (algorithm_of self.now) }
        ensures valid { IsShape (shape_of result.now.shape) }
    {
        &self.output
    }

    /// A definition of a function: number 0 is the pure definition, and the updates follow from 1 on.
    pub fn def(&self, function: usize, definition: usize) -> Definition<'_>
        requires { HasDefinition (algorithm_of self.now) function definition }
        ensures { IfSome (slice_get (algorithm_of self.now).functions function) (λ f. IsDefinition f.value f.changes definition result) }
    {
        match self.functions.get_index(function) {
            Some((_, function)) => function.definition(definition),
            None => unreachable!(),
        }
    }

    /// Every algorithm is well formed.
    pub fn is_well_formed(&self)
        ensures { IsAlgorithm (algorithm_of self.now) }
    {}

    /// Every algorithm was read: some text says it, so what it names has names, and its expressions can be written.
    pub fn is_read(&self)
        ensures text { IsRead (algorithm_of self.now) }
        ensures named { IsNamed (algorithm_of self.now) }
        ensures written { AreExpressionsWritten (algorithm_of self.now) }
    {}
}
