//! Algorithms of images that are larger than an algorithm's may be.

ghost use Rattle.std.specs.Prelude.{◌≡◌, map};
ghost use Rattle.algo.specs.View.{algorithm_of};
ghost use Rattle.crop.specs.Narrow.{narrow_extent};

use crate::narrow::narrow;
use crate::scene_error::{SceneError, refusal};
use algo::Algo;
use expr::statements::{Extent, File};
use std::alloc::{AllocError, Global};

/// An algorithm whose extents may be wide: from 1 to 16,777,216, the number of colours 3. All else is as in any algorithm;
/// it is kept with 1 in place of each extent above 8,192.
#[derive(Drop)]
pub struct Scene {
    algo: Algo,
    input_extents: Vec<u32>,
    output_extents: Vec<u32>,
    pub ghost input: { (algorithm_of algo).input_extents ≡ map narrow_extent input_extents.items },
    pub ghost output: { (algorithm_of algo).output_extents ≡ map narrow_extent output_extents.items },
}

impl Scene {
    ghost use Rattle.std.specs.Prelude.{IfOk, IfErr};
    ghost use Rattle.expr.specs.Statements.View.{extent_text, file_text};
    ghost use Rattle.algo.specs.Saying.{says};
    ghost use Rattle.algo.specs.declared.error.AlgoError.TheVariants.{Memory};
    ghost use Rattle.crop.specs.Narrow.{narrowed, IsScene};
    ghost use Rattle.crop.specs.declared.scene_error.SceneError.TheVariants.{Text};
    ghost use Rattle.crop.specs.Scene.{scene_of, IsSceneText, IsRefusedScene, IsRefusedScenePlace, IsNoScene};

    /// The numbers of extents.
    fn numbers(alloc: Global, extents: &[Extent]) -> Result<Vec<u32>, AllocError>
        ensures { IfOk result (λ numbers. numbers.items ≡ map extent_text extents.now) }
    {
        extents.iter().map(|extent| extent.number).collect(alloc)
    }

    /// The scene of a file, whose algorithm with 1 in place of each wide extent is this.
    fn of_file(alloc: Global, file: &File, algo: Algo) -> Result<Scene, AllocError>
        requires { algorithm_of algo ≡ narrowed (says (file_text file.now)) }
        ensures { IfOk result (λ s. scene_of s ≡ says (file_text file.now)) }
    {
        let input_extents = Scene::numbers(alloc, &file.input.extents)?;
        let output_extents = Scene::numbers(alloc, &file.output.extents)?;
        Ok(Scene {
            algo,
            input_extents,
            output_extents,
        })
    }

    /// Reads an algorithm text whose extents may be up to 16,777,216.
    ///
    /// # Errors
    /// As of `Algo::read`, but for that limit. Where an extent is above 8,192, an update whose reduction is past the limits is
    /// `Reduction`.
    pub fn read(alloc: Global, text: &str) -> Result<Scene, SceneError>
        ensures said { IfOk result (λ s. IsSceneText text.now (scene_of s)) }
        ensures refused { IfErr result (IsRefusedScene text.now) }
        // What the code says is broken is broken at the place, in the text with 1 for each wide extent.
        ensures place { IfErr result (IsRefusedScenePlace text.now) }
        // A text is refused only where it is no scene.
        ensures only { IfErr result (IsNoScene text.now) }
    {
        let file = expr::statements::read(alloc, text)?;
        let narrow = narrow(alloc, text)?;
        match Algo::read(alloc, &narrow) {
            Ok(algo) => Ok(Scene::of_file(alloc, &file, algo)?),
            Err(error) => Err(refusal(&file, narrow.as_str() != text, error)),
        }
    }

    /// The algorithm with 1 in place of each wide extent.
    pub fn algo(&self) -> &Algo
        ensures { algorithm_of result.now ≡ narrowed (scene_of self.now) }
    {
        &self.algo
    }

    /// The input's extents.
    pub fn input_extents(&self) -> &[u32]
        ensures { result.now ≡ (scene_of self.now).input_extents }
    {
        &self.input_extents
    }

    /// The output's extents.
    pub fn output_extents(&self) -> &[u32]
        ensures { result.now ≡ (scene_of self.now).output_extents }
    {
        &self.output_extents
    }

    /// Every scene is well formed, but for the limit of its extents.
    pub fn is_scene(&self)
        ensures { IsScene (scene_of self.now) }
    {
        self.algo.is_well_formed();
    }
}
