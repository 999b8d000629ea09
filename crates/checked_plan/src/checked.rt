//! Plans that may be run.

ghost use Rattle.std.specs.Prelude.{◌≡◌, ℕ, List, length};
ghost use Rattle.algo.specs.View.{algorithm_of};
ghost use Rattle.plan.specs.View.{plan_of};
ghost use Rattle.plan.specs.Certificate.Certificate.{certificate_of};
ghost use Rattle.plan.specs.Certificate.Cells.{cells as cells_of};
ghost use Rattle.checked_plan.specs.Ready.Ready.{Ready};
ghost use Rattle.checked_plan.specs.Lists.{ListsAreOf};

use algo::Algo;
use orders::{CellRuns, Piece};
use plan::Plan;
use plan::certificate::Cert;

/// A plan with its certificate that may be run for an algorithm: every order of steps of any workers gives, on every input,
/// the picture that the algorithm says.
///
/// Beside these it holds the cells that each piece owns and fetches and the pieces that it needs: one number for each cell
/// of the plan, and three lists for each piece.
#[derive(Drop)]
pub struct Checked<'a> {
    algo: &'a Algo,
    plan: Plan,
    cert: Cert,
    pieces: Vec<Piece>,
    cells: u32,
    pub ghost ready: { ∥ Ready (algorithm_of algo.now) (plan_of plan) (certificate_of cert) ∥₁ },
    pub ghost lists: { ∥ ListsAreOf (algorithm_of algo.now) (plan_of plan) (certificate_of cert) pieces.items ∥₁ },
    pub ghost counted: { cells ≡ length (cells_of (plan_of plan)) },
}

impl<'a> Checked<'a> {
    /// A plan that may be run, with the lists of its pieces and the number of its cells, each as the plan has it.
    pub fn of(algo: &'a Algo, plan: Plan, cert: Cert, pieces: Vec<Piece>, cells: u32) -> Checked<'a>
        requires ready { Ready (algorithm_of algo.now) (plan_of plan) (certificate_of cert) }
        requires lists { ListsAreOf (algorithm_of algo.now) (plan_of plan) (certificate_of cert) pieces.items }
        requires counted { cells ≡ length (cells_of (plan_of plan)) }
        ensures holds { (result.algo.now ≡ algo.now) × (result.plan ≡ plan) × (result.cert ≡ cert) }
        ensures numbers { (result.pieces ≡ pieces) × (result.cells ≡ cells) }
    {
        Checked {
            algo,
            plan,
            cert,
            pieces,
            cells,
        }
    }
}

impl Checked<'_> {
    ghost use Rattle.std.specs.Prelude.{◌<◌};
    ghost use Rattle.headline.specs.Work.{work_of};
    ghost use Rattle.checked_plan.specs.View.{algorithm_checked, plan_checked, certificate_checked};

    /// The algorithm that the plan is right for.
    pub fn algo(&self) -> &Algo
        ensures { algorithm_of result.now ≡ algorithm_checked self.now }
    {
        self.algo
    }

    /// The plan.
    pub fn plan(&self) -> &Plan
        ensures { plan_of result.now ≡ plan_checked self.now }
    {
        &self.plan
    }

    /// The certificate.
    pub fn cert(&self) -> &Cert
        ensures { certificate_of result.now ≡ certificate_checked self.now }
    {
        &self.cert
    }

    /// How many pieces there are.
    pub fn pieces(&self) -> usize
        ensures count { result ≡ length self.now.pieces.items }
        ensures work { (samples : List ℕ) → result ≡ (work_of (algorithm_checked self.now) (plan_checked self.now) (certificate_checked self.now) samples).pieces }
    {
        self.pieces.as_slice().len()
    }

    /// How many cells there are.
    pub fn cells(&self) -> u32
        ensures { (samples : List ℕ) → result ≡ (work_of (algorithm_checked self.now) (plan_checked self.now) (certificate_checked self.now) samples).cells }
    {
        self.cells
    }

    /// The numbers of the cells that a piece owns, in the order in which it puts them.
    pub fn own(&self, piece: usize) -> &CellRuns
        requires { piece < length self.now.pieces.items }
        ensures { (samples : List ℕ) → result.now ≡ (work_of (algorithm_checked self.now) (plan_checked self.now) (certificate_checked self.now) samples).own piece }
    {
        &self.pieces[piece].own
    }

    /// The numbers of the cells that a piece fetches, in the order in which it looks at them.
    pub fn fetched(&self, piece: usize) -> &[u32]
        requires { piece < length self.now.pieces.items }
        ensures { (samples : List ℕ) → result.now ≡ (work_of (algorithm_checked self.now) (plan_checked self.now) (certificate_checked self.now) samples).fetched piece }
    {
        self.pieces[piece].fetched.as_slice()
    }

    /// The numbers of the pieces that must be finished before this one, rising.
    pub fn needs(&self, piece: usize) -> &[u32]
        requires { piece < length self.now.pieces.items }
        ensures { (samples : List ℕ) → result.now ≡ (work_of (algorithm_checked self.now) (plan_checked self.now) (certificate_checked self.now) samples).needs piece }
    {
        self.pieces[piece].needs.as_slice()
    }
}
