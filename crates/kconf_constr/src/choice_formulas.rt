//! The formulas that a choice holds.

ghost use Rattle.std.specs.Prelude.{◌≡◌, ◌<◌, ◌++◌, All, IfOk, OnOk, length, map};
ghost use Rattle.std.specs.List.{flat_map};
ghost use Rattle.ut_logic.specs.Fold as fold;
ghost use Rattle.kconf_tree.specs.Shape.{choice_at};
ghost use Rattle.kconf_constr.specs.Levels.{at_level, modules_formula as on};
ghost use Rattle.kconf_constr.specs.PropertyFormulas.{visibility_levels};
ghost use Rattle.kconf_constr.specs.ChoiceFormulas as spec;

use crate::expressions::modules_formula;
use crate::level::Level;
use crate::scope::Scope;
use kconf_tree::Counts;
use std::alloc::{AllocError, Global};
use ut_logic::{Formula, Item, all_of, any_of, not_of};

/// The mode of the choice is y.
fn mode_y(choice: u32) -> Formula
    ensures { result ≡ Formula.Is (Item.ModeY choice) }
{
    Formula::Is(Item::ModeY(choice))
}

/// The mode of the choice is m.
fn mode_m(choice: u32) -> Formula
    ensures { result ≡ Formula.Is (Item.ModeM choice) }
{
    Formula::Is(Item::ModeM(choice))
}

/// The mode isn't y.
fn not_mode_y(alloc: Global, choice: u32) -> Result<Formula, AllocError>
    ensures { IfOk result (λ f. f ≡ fold.not_of (Formula.Is (Item.ModeY choice))) }
{
    not_of(alloc, mode_y(choice))
}

/// The mode isn't m.
fn not_mode_m(alloc: Global, choice: u32) -> Result<Formula, AllocError>
    ensures { IfOk result (λ f. f ≡ fold.not_of (Formula.Is (Item.ModeM choice))) }
{
    not_of(alloc, mode_m(choice))
}

/// The member is y.
fn y(member: u32) -> Formula
    ensures { result ≡ Formula.Is (Item.SymY member) }
{
    Formula::Is(Item::SymY(member))
}

/// The member isn't y.
fn not_y(alloc: Global, member: u32) -> Result<Formula, AllocError>
    ensures { IfOk result (λ f. f ≡ fold.not_of (Formula.Is (Item.SymY member))) }
{
    not_of(alloc, y(member))
}

/// The member isn't m.
fn not_m(alloc: Global, member: u32) -> Result<Formula, AllocError>
    ensures { IfOk result (λ f. f ≡ fold.not_of (Formula.Is (Item.SymM member))) }
{
    not_of(alloc, Formula::Is(Item::SymM(member)))
}

/// One of the two isn't y.
fn not_both(alloc: Global, member: u32, other: u32) -> Result<Formula, AllocError>
    ensures { IfOk result (λ f. f ≡ spec.not_both member other) }
{
    let first = not_y(alloc, member)?;
    let second = not_y(alloc, other)?;
    Ok(any_of(vec![in alloc; first, second]?))
}

/// Adds that the member and each later member aren't both y.
fn add_pairs_with(
    alloc: Global,
    member: u32,
    later: &[u32],
    holds: &mut Vec<Formula>,
) -> Result<(), AllocError>
    ensures { OnOk result (holds.new.items ≡ holds.old.items ++ map (spec.not_both member) later.now) }
{
    for other in later {
        holds.push(not_both(alloc, member, *other)?)?;
    }
    Ok(())
}

/// Adds that at most one member is y.
fn add_pairs(alloc: Global, members: &[u32], holds: &mut Vec<Formula>) -> Result<(), AllocError>
    ensures { OnOk result (holds.new.items ≡ holds.old.items ++ spec.pairs members.now) }
{
    for (place, member) in members.iter().enumerate() {
        add_pairs_with(alloc, *member, &members[place + 1..], holds)?;
    }
    Ok(())
}

/// Adds the items of members.
fn add_each(members: &[u32], formulas: &mut Vec<Formula>) -> Result<(), AllocError>
    ensures { OnOk result (formulas.new.items ≡ formulas.old.items ++ spec.are_y members.now) }
{
    for member in members {
        formulas.push(y(*member))?;
    }
    Ok(())
}

impl<'a> Scope<'a> {
    /// That a tristate member can be y: its visibility is y, or it isn't n and modules are off.
    fn tristate_can_y(&self, alloc: Global, member: u32) -> Result<Formula, AllocError>
        requires { member < length self.now.shape.symbols }
        ensures { IfOk result (λ f. f ≡ spec.lets_y_as Counts.Tristate (on self.now.shape.modules) (visibility_levels self.now member)) }
    {
        let full = self.visibility(alloc, member, Level::IsY)?;
        let without = not_of(alloc, modules_formula(self.tree().modules()))?;
        let seen = self.visibility(alloc, member, Level::NotN)?;
        let raised = all_of(vec![in alloc; without, seen]?);
        Ok(any_of(vec![in alloc; full, raised]?))
    }

    /// That a member can be y.
    fn can_y(&self, alloc: Global, member: u32) -> Result<Formula, AllocError>
        requires { member < length self.now.shape.symbols }
        ensures { IfOk result (λ f. f ≡ spec.can_y self.now member) }
    {
        match self.tree().counts_as(member) {
            Counts::Bool | Counts::Neither => self.visibility(alloc, member, Level::NotN),
            Counts::Tristate => self.tristate_can_y(alloc, member),
        }
    }

    /// Adds that a member is y only in mode y, and only where it can be.
    fn add_member_y(
        &self,
        alloc: Global,
        choice: u32,
        member: u32,
        holds: &mut Vec<Formula>,
    ) -> Result<(), AllocError>
        requires { member < length self.now.shape.symbols }
        ensures { OnOk result (holds.new.items ≡ holds.old.items ++ spec.member_y_holds self.now (Formula.Is (Item.ModeY choice)) member) }
    {
        let off = not_y(alloc, member)?;
        holds.push(any_of(vec![in alloc; off, mode_y(choice)]?))?;
        let off = not_y(alloc, member)?;
        let can = self.can_y(alloc, member)?;
        holds.push(any_of(vec![in alloc; off, can]?))?;
        Ok(())
    }

    /// Adds this for each member.
    fn add_members_y(
        &self,
        alloc: Global,
        choice: u32,
        members: &[u32],
        holds: &mut Vec<Formula>,
    ) -> Result<(), AllocError>
        requires { All (λ j. j < length self.now.shape.symbols) members.now }
        ensures { OnOk result (holds.new.items ≡ holds.old.items ++ flat_map (spec.member_y_holds self.now (Formula.Is (Item.ModeY choice))) members.now) }
    {
        for member in members {
            self.add_member_y(alloc, choice, *member, holds)?;
        }
        Ok(())
    }

    /// Adds that a tristate member is m only in mode m, and only where it is visible.
    fn add_tristate_m(
        &self,
        alloc: Global,
        choice: u32,
        member: u32,
        holds: &mut Vec<Formula>,
    ) -> Result<(), AllocError>
        requires { member < length self.now.shape.symbols }
        ensures { OnOk result (holds.new.items ≡ holds.old.items ++ spec.m_holds_as self.now (Formula.Is (Item.ModeM choice)) Counts.Tristate member) }
    {
        let off = not_m(alloc, member)?;
        holds.push(any_of(vec![in alloc; off, mode_m(choice)]?))?;
        let off = not_m(alloc, member)?;
        let seen = self.visibility(alloc, member, Level::NotN)?;
        holds.push(any_of(vec![in alloc; off, seen]?))?;
        Ok(())
    }

    /// Adds this for a member that counts as tristate.
    fn add_member_m(
        &self,
        alloc: Global,
        choice: u32,
        member: u32,
        holds: &mut Vec<Formula>,
    ) -> Result<(), AllocError>
        requires { member < length self.now.shape.symbols }
        ensures { OnOk result (holds.new.items ≡ holds.old.items ++ spec.member_m_holds self.now (Formula.Is (Item.ModeM choice)) member) }
    {
        match self.tree().counts_as(member) {
            Counts::Bool | Counts::Neither => Ok(()),
            Counts::Tristate => self.add_tristate_m(alloc, choice, member, holds),
        }
    }

    /// Adds this for each member.
    fn add_members_m(
        &self,
        alloc: Global,
        choice: u32,
        members: &[u32],
        holds: &mut Vec<Formula>,
    ) -> Result<(), AllocError>
        requires { All (λ j. j < length self.now.shape.symbols) members.now }
        ensures { OnOk result (holds.new.items ≡ holds.old.items ++ flat_map (spec.member_m_holds self.now (Formula.Is (Item.ModeM choice))) members.now) }
    {
        for member in members {
            self.add_member_m(alloc, choice, *member, holds)?;
        }
        Ok(())
    }

    /// That in mode y, where this member can be y, some member is.
    fn some_y(
        &self,
        alloc: Global,
        choice: u32,
        members: &[u32],
        member: u32,
    ) -> Result<Formula, AllocError>
        requires { member < length self.now.shape.symbols }
        ensures { IfOk result (λ f. f ≡ spec.some_holds self.now (Formula.Is (Item.ModeY choice)) members.now member) }
    {
        let off = not_mode_y(alloc, choice)?;
        let cannot = not_of(alloc, self.can_y(alloc, member)?)?;
        let mut parts = vec![in alloc; off, cannot]?;
        add_each(members, &mut parts)?;
        Ok(any_of(parts))
    }

    /// Adds this for each member.
    fn add_some_y(
        &self,
        alloc: Global,
        choice: u32,
        members: &[u32],
        holds: &mut Vec<Formula>,
    ) -> Result<(), AllocError>
        requires { All (λ j. j < length self.now.shape.symbols) members.now }
        ensures { OnOk result (holds.new.items ≡ holds.old.items ++ map (spec.some_holds self.now (Formula.Is (Item.ModeY choice)) members.now) members.now) }
    {
        for member in members {
            holds.push(self.some_y(alloc, choice, members, *member)?)?;
        }
        Ok(())
    }

    /// The formula of a choice's visibility.
    fn choice_visibility(
        &self,
        alloc: Global,
        choice: u32,
        level: Level,
    ) -> Result<Formula, AllocError>
        requires { choice < length self.now.shape.choices }
        ensures { IfOk result (λ f. f ≡ at_level level (spec.choice_levels self.now choice)) }
    {
        let prompts = &self.tree().choice_at(choice).prompts;
        self.greatest_formula(alloc, prompts.as_slice(), level)
    }

    /// The formulas of a bool choice's mode.
    fn bool_mode(&self, alloc: Global, choice: u32) -> Result<Vec<Formula>, AllocError>
        requires { choice < length self.now.shape.choices }
        ensures { IfOk result (λ v. v.items ≡ spec.bool_mode (choice_at self.now.shape choice).optional (Formula.Is (Item.ModeY choice)) (spec.choice_levels self.now choice)) }
    {
        let off = not_mode_y(alloc, choice)?;
        let seen = self.choice_visibility(alloc, choice, Level::NotN)?;
        let only = any_of(vec![in alloc; off, seen]?);
        if self.tree().choice_at(choice).optional {
            return Ok(vec![in alloc; only]?);
        }
        let unseen = not_of(alloc, self.choice_visibility(alloc, choice, Level::NotN)?)?;
        let there = any_of(vec![in alloc; unseen, mode_y(choice)]?);
        Ok(vec![in alloc; only, there]?)
    }

    /// Adds that a tristate choice has one mode, and m only with modules.
    fn add_one_mode(
        &self,
        alloc: Global,
        choice: u32,
        holds: &mut Vec<Formula>,
    ) -> Result<(), AllocError>
        ensures { OnOk result (holds.new.items ≡ holds.old.items ++ spec.one_mode (Formula.Is (Item.ModeY choice)) (Formula.Is (Item.ModeM choice)) (on self.now.shape.modules)) }
    {
        let not_y = not_mode_y(alloc, choice)?;
        let not_m = not_mode_m(alloc, choice)?;
        holds.push(any_of(vec![in alloc; not_y, not_m]?))?;
        let not_m = not_mode_m(alloc, choice)?;
        let modules = modules_formula(self.tree().modules());
        holds.push(any_of(vec![in alloc; not_m, modules]?))?;
        Ok(())
    }

    /// Adds that it has mode y, and m, only as far as it is visible.
    fn add_seen_modes(
        &self,
        alloc: Global,
        choice: u32,
        holds: &mut Vec<Formula>,
    ) -> Result<(), AllocError>
        requires { choice < length self.now.shape.choices }
        ensures { OnOk result (holds.new.items ≡ holds.old.items ++ spec.seen_modes (Formula.Is (Item.ModeY choice)) (Formula.Is (Item.ModeM choice)) (on self.now.shape.modules) (spec.choice_levels self.now choice)) }
    {
        let not_y = not_mode_y(alloc, choice)?;
        let seen = self.choice_visibility(alloc, choice, Level::NotN)?;
        holds.push(any_of(vec![in alloc; not_y, seen]?))?;
        let not_y = not_mode_y(alloc, choice)?;
        let full = self.choice_visibility(alloc, choice, Level::IsY)?;
        let without = not_of(alloc, modules_formula(self.tree().modules()))?;
        holds.push(any_of(vec![in alloc; not_y, full, without]?))?;
        let not_m = not_mode_m(alloc, choice)?;
        let seen = self.choice_visibility(alloc, choice, Level::NotN)?;
        holds.push(any_of(vec![in alloc; not_m, seen]?))?;
        Ok(())
    }

    /// Adds that it has one of the two where it is visible, unless it is optional.
    fn add_some_mode(
        &self,
        alloc: Global,
        choice: u32,
        holds: &mut Vec<Formula>,
    ) -> Result<(), AllocError>
        requires { choice < length self.now.shape.choices }
        ensures { OnOk result (holds.new.items ≡ holds.old.items ++ spec.some_mode (choice_at self.now.shape choice).optional (Formula.Is (Item.ModeY choice)) (Formula.Is (Item.ModeM choice)) (spec.choice_levels self.now choice)) }
    {
        if self.tree().choice_at(choice).optional {
            return Ok(());
        }
        let unseen = not_of(alloc, self.choice_visibility(alloc, choice, Level::NotN)?)?;
        holds.push(any_of(vec![in alloc; unseen, mode_y(choice), mode_m(choice)]?))?;
        Ok(())
    }

    /// The formulas of a bool choice.
    fn bool_choice(&self, alloc: Global, choice: u32) -> Result<Vec<Formula>, AllocError>
        requires { choice < length self.now.shape.choices }
        ensures { IfOk result (λ v. v.items ≡ spec.bool_choice_holds self.now choice (choice_at self.now.shape choice).members) }
    {
        let mut holds = self.bool_mode(alloc, choice)?;
        let members = self.tree().choice_at(choice).members.as_slice();
        self.add_members_y(alloc, choice, members, &mut holds)?;
        add_pairs(alloc, members, &mut holds)?;
        self.add_some_y(alloc, choice, members, &mut holds)?;
        Ok(holds)
    }

    /// The formulas of a tristate choice.
    fn tristate_choice(&self, alloc: Global, choice: u32) -> Result<Vec<Formula>, AllocError>
        requires { choice < length self.now.shape.choices }
        ensures { IfOk result (λ v. v.items ≡ spec.tristate_choice_holds self.now choice (choice_at self.now.shape choice).members) }
    {
        let mut holds = Vec::new(alloc);
        self.add_one_mode(alloc, choice, &mut holds)?;
        self.add_seen_modes(alloc, choice, &mut holds)?;
        self.add_some_mode(alloc, choice, &mut holds)?;
        let members = self.tree().choice_at(choice).members.as_slice();
        self.add_members_y(alloc, choice, members, &mut holds)?;
        self.add_members_m(alloc, choice, members, &mut holds)?;
        add_pairs(alloc, members, &mut holds)?;
        self.add_some_y(alloc, choice, members, &mut holds)?;
        Ok(holds)
    }

    /// The formulas that hold for a choice. The only error is out of memory.
    pub fn choice_holds(&self, alloc: Global, choice: u32) -> Result<Vec<Formula>, AllocError>
        requires { choice < length self.now.shape.choices }
        ensures { IfOk result (λ v. v.items ≡ spec.choice_holds self.now choice) }
    {
        match self.tree().choice_counts(choice) {
            Counts::Bool | Counts::Neither => self.bool_choice(alloc, choice),
            Counts::Tristate => self.tristate_choice(alloc, choice),
        }
    }
}
