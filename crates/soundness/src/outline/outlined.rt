//! A group of a plan and what its lines refer to.

ghost use Rattle.std.specs.Prelude.{◌≡◌, ◌≤◌, ◌<◌, ◌^◌, length, map, IsTrue, IfOk};
ghost use Rattle.plan.specs.Certificate.Certificate.{claim_of};
ghost use Rattle.soundness.specs.Given.{named_from};
ghost use Rattle.plan.specs.View.{statement_of};
ghost use Rattle.soundness.specs.Outline.Rooms.{AreNoted};

use crate::outline::loads::claim_of as claim_named;
use crate::outline::rooms::{Room, room_in, rooms_of};
use crate::outline::source::Source;
use plan::certificate::{Cert, Claim, Window};
use plan::{Group, Places, Plan, Stmt};
use std::alloc::{AllocError, Global};

/// A group of a plan with its certificate, and what the group's lines refer to.
#[derive(Drop)]
pub struct Outlined<'a> {
    plan: &'a Plan,
    cert: &'a Cert,
    number: usize,
    group: &'a Group,
    rooms: Vec<Room<'a>>,
    ghost noted: { ∥ AreNoted rooms.items (statement_of group.now.body) ∥₁ },
    ghost known: { number < length plan.now.groups.items },
}

/// The numbers of the claims of a line, rising.
fn claims_at(alloc: Global, claims: &[Claim], line: u64) -> Result<Vec<u64>, AllocError>
    ensures { IfOk result (λ found. found.items ≡ named_from 0 (map claim_of claims.now) line) }
{
    let mut found = Vec::new(alloc);
    for (number, claim) in claims.iter().enumerate() {
        if claim.line == line {
            found.push(number as u64)?;
        }
    }
    Ok(found)
}

impl<'a> Outlined<'a> {
    ghost use Rattle.std.specs.Prelude.{◌-◌, min, MatchOption, None, Some, slice_get};
    ghost use Rattle.plan.specs.Lines.{body_line};
    ghost use Rattle.plan.specs.View.{plan_of, group_of};
    ghost use Rattle.plan.specs.Certificate.Certificate.{certificate_of};
    ghost use Rattle.soundness.specs.Given.{claim_or_none};
    ghost use Rattle.soundness.specs.Obligations.{is_member};
    ghost use Rattle.soundness.specs.Outline.Rooms.{places_in};
    ghost use Rattle.soundness.specs.Outline.View.{plan_in, certificate_in, number_in, group_in, outline_in, buffer_in, claim_held, source_held};

    /// The group of this number, with its plan and certificate.
    ///
    /// # Errors
    /// Want of memory.
    pub fn new(
        alloc: Global,
        plan: &'a Plan,
        cert: &'a Cert,
        number: usize,
    ) -> Result<Outlined<'a>, AllocError>
        requires { number < length plan.now.groups.items }
        ensures plan { IfOk result (λ o. plan_in o ≡ plan_of plan.now) }
        ensures certificate { IfOk result (λ o. certificate_in o ≡ certificate_of cert.now) }
        ensures number { IfOk result (λ o. number_in o ≡ number) }
        ensures group { IfOk result (λ o. slice_get (plan_of plan.now).groups number ≡ Some (group_in o)) }
    {
        let group = &plan.groups[number];
        let rooms = rooms_of(alloc, &group.body)?;
        Ok(Outlined {
            plan,
            cert,
            number,
            group,
            rooms,
        })
    }

    /// The plan.
    pub fn plan(&self) -> &'a Plan
        ensures { plan_of result.now ≡ plan_in self.now }
    {
        self.plan
    }

    /// The plan's certificate.
    pub fn cert(&self) -> &'a Cert
        ensures { certificate_of result.now ≡ certificate_in self.now }
    {
        self.cert
    }

    /// The group's number, counted from 0.
    pub fn number(&self) -> usize
        ensures { result ≡ number_in self.now }
    {
        self.number
    }

    /// The group.
    pub fn group(&self) -> &'a Group
        ensures { group_of result.now ≡ group_in self.now }
    {
        self.group
    }

    /// What a piece of the group does.
    pub fn body(&self) -> &'a Stmt
        ensures { statement_of result.now ≡ (group_in self.now).body }
    {
        &self.group.body
    }

    /// What the buffer holds values of; empty where no line allocates the buffer.
    pub fn buffer_function(&self, buffer: u64) -> &'a str
        ensures { result.now ≡ (outline_in self.now).setting.buffer_function buffer }
    {
        match room_in(&self.rooms, buffer) {
            Some(room) => room.function,
            None => "",
        }
    }

    /// The places of a buffer, if a line allocates it.
    pub fn buffer_places(&self, buffer: u64) -> Option<&'a [Places]>
        ensures { MatchOption result (buffer_in self.now buffer ≡ None) (λ places. places_in (buffer_in self.now buffer) ≡ Some places.now) }
    {
        match room_in(&self.rooms, buffer) {
            Some(room) => Some(room.places),
            None => None,
        }
    }

    /// How many coordinates a buffer has, 0 where no line allocates it.
    pub fn dimensions(&self, buffer: u64) -> usize
        ensures { result ≡ (outline_in self.now).setting.dimensions buffer }
    {
        match room_in(&self.rooms, buffer) {
            Some(room) => room.places.len(),
            None => 0,
        }
    }

    /// The name of a group's function, empty where there is no such group.
    pub fn group_function(&self, group: u64) -> &'a str
        ensures { result.now ≡ (outline_in self.now).setting.group_function group }
    {
        match self.plan.groups.get(group as usize) {
            Some(group) => group.function.as_str(),
            None => "",
        }
    }

    /// A claim, if there is one of this number.
    pub fn claim(&self, claim: u64) -> Option<&'a Claim>
        ensures known { claim_held result ≡ slice_get (certificate_in self.now).claims claim }
        ensures meant { claim_or_none (claim_held result) ≡ (outline_in self.now).claim claim }
    {
        self.cert.claims.get(claim as usize)
    }

    /// The claims of the statement that ends at a line, rising. It looks at each claim once.
    pub fn named(&self, alloc: Global, line: u64) -> Result<Vec<u64>, AllocError>
        ensures { IfOk result (λ claims. claims.items ≡ (outline_in self.now).named line) }
    {
        claims_at(alloc, &self.cert.claims, line)
    }

    /// Whether a claim is of the statement that ends at a line.
    #[tactic(auto, using(crate::proofs::OfOutline::Named::is_named))]
    pub fn is_named(&self, claim: u64, line: u64) -> bool
        ensures { result ≡ is_member claim ((outline_in self.now).named line) }
    {
        match self.claim(claim) {
            None => false,
            Some(claim) => claim.line == line,
        }
    }

    /// The windows of the certificate, of all groups.
    pub fn windows(&self) -> &'a [Window]
        ensures { result.now ≡ (outline_in self.now).windows }
    {
        self.cert.windows.as_slice()
    }

    /// What a name in a stored expression means.
    pub fn source(&self, name: &str) -> Source
        ensures { source_held result ≡ (outline_in self.now).source name.now }
    {
        if name == self.plan.input.name.as_str() {
            return Source::Input;
        }
        match claim_named(name) {
            Some(claim) if claim < self.cert.claims.len() => Source::ByClaim(claim as u64),
            _ => Source::Unknown,
        }
    }

    /// The line at which the group's body begins. Lines past the greatest `u32` count as that.
    pub fn body_line(&self) -> u32
        ensures { result ≡ min (body_line (plan_in self.now) (number_in self.now)) (2 ^ 32 - 1) }
    {
        self.plan.group_line(self.number).saturating_add(1)
    }
}
