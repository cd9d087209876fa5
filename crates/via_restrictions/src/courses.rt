//! Restrictions over via ways by their courses: the way that they come from, and their via ways.

ghost use Rattle.std.specs.Prelude.{◌≡◌, ℕ, ℤ, IfOk, OnOk, ◌&&◌, ◌||◌, ◌==◌};
ghost use Rattle.via_restrictions.specs.ViaParts.{AreNumbers, AreShut, shut_in};
ghost use Rattle.via_restrictions.specs.ViaWays.{course, first_like, shuts};

use crate::way_sets::WaySets;
use std::alloc::{AllocError, Global};
use std::collections::HashMap;
use turn_rules::ViaRestriction;

/// The courses of restrictions: equal ones have one number, so that thousands of restrictions of one course cost no
/// more than their own number. What restrictions forbid behind each course is looked up.
#[derive(Drop)]
pub struct Courses {
    /// the number of each course: that of the first restriction of it
    pub numbers: HashMap<Vec<i64>, usize>,
    /// the ways that are forbidden behind each course
    pub forbidden: WaySets,
    /// those behind each course besides which all others are
    pub only: WaySets,
}

// The course of a restriction.
fn course_of(alloc: Global, rule: &ViaRestriction) -> Result<Vec<i64>, AllocError>
    ensures { IfOk result (λ ways. ways.items ≡ course rule.now) }
{
    let mut ways = Vec::with_capacity(alloc, rule.via().len() + 1)?;
    ways.push(rule.from())?;
    ways.extend_from_slice(rule.via())?;
    Ok(ways)
}

// The number of each course.
fn numbers_of(
    alloc: Global,
    rules: &[ViaRestriction],
) -> Result<HashMap<Vec<i64>, usize>, AllocError>
    ensures { IfOk result (λ numbers. AreNumbers rules.now numbers) }
{
    let mut numbers = HashMap::new(alloc);
    for i in (0..rules.len()).rev() {
        let ways = course_of(alloc, &rules[i])?;
        numbers.insert(ways, i)?;
    }
    Ok(numbers)
}

// The number of a restriction's course.
fn number_of(
    alloc: Global,
    numbers: &HashMap<Vec<i64>, usize>,
    rules: &[ViaRestriction],
    rule: &ViaRestriction,
) -> Result<usize, AllocError>
    requires { AreNumbers rules.now numbers.now }
    ensures { IfOk result (λ number. number ≡ first_like rules.now (course rule.now)) }
{
    let ways = course_of(alloc, rule)?;
    match numbers.get(&ways) {
        Some(number) => Ok(*number),
        None => Ok(rules.len()),
    }
}

impl Courses {
    /// The courses of these restrictions.
    pub fn of(alloc: Global, rules: &[ViaRestriction]) -> Result<Courses, AllocError>
        ensures numbers { IfOk result (λ c. AreNumbers rules.now c.numbers) }
        ensures shut { IfOk result (λ c. AreShut rules.now c.forbidden.ways c.only.firsts) }
    {
        let mut courses = Courses {
            numbers: numbers_of(alloc, rules)?,
            forbidden: WaySets::new(alloc),
            only: WaySets::new(alloc),
        };
        for i in (0..rules.len()).rev() {
            courses.add(alloc, rules, &rules[i])?;
        }
        Ok(courses)
    }

    // Adds what a restriction forbids behind its course.
    fn add(
        &mut self,
        alloc: Global,
        rules: &[ViaRestriction],
        rule: &ViaRestriction,
    ) -> Result<(), AllocError>
        requires { AreNumbers rules.now self.old.numbers }
        ensures numbers { self.new.numbers ≡ self.old.numbers }
        ensures shut { OnOk result ((number : ℕ) (way : ℤ) → shut_in self.new.forbidden.ways self.new.only.firsts number way
            ≡ (shut_in self.old.forbidden.ways self.old.only.firsts number way || ((first_like rules.now (course rule.now) == number) && shuts rule.now way))) }
    {
        let number = self.number(alloc, rules, rule)?;
        if rule.only() {
            self.only.add(number, rule.to())
        } else {
            self.forbidden.add(number, rule.to())
        }
    }

    /// The number of a restriction's course.
    pub fn number(
        &self,
        alloc: Global,
        rules: &[ViaRestriction],
        rule: &ViaRestriction,
    ) -> Result<usize, AllocError>
        requires { AreNumbers rules.now self.now.numbers }
        ensures { IfOk result (λ number. number ≡ first_like rules.now (course rule.now)) }
    {
        number_of(alloc, &self.numbers, rules, rule)
    }

    /// Whether a restriction of the course of a number forbids to go on onto a way.
    pub fn shut(&self, number: usize, way: i64) -> bool
        ensures { result ≡ shut_in self.now.forbidden.ways self.now.only.firsts number way }
    {
        self.forbidden.has(number, way) || self.only.has_other(number, way)
    }
}
