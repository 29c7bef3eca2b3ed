//! Numbers that depend on a few numbers that aren't known: sums of multiples of them.

ghost use Rattle.std.specs.Prelude.{◌≡◌, ◌++◌, IfOk};
ghost use Rattle.queue_certificates.specs.Forms.{dot, form_value, number, first_variable, sums, plus, times, lifted, combined, substituted};
ghost use Rattle.queue_certificates.specs.Forms as forms;
ghost use Rattle.queue_certificates.specs.Forms.{differences, minus, factor_at, raised, vanishes, agree};

use crate::lack::{Lack, product, remainder_by, sum};
use std::alloc::Global;
use std::marker::Model;

/// A constant, and of each variable how often it is taken. Variables that no factor stands for aren't taken.
#[derive(Drop)]
pub struct Form {
    pub constant: u64,
    pub factors: Vec<u64>,
}

impl Model for Form {
    ghost use Rattle.queue_certificates.specs.Forms.{Form as FormOf};

    ghost Value = { FormOf };

    ghost view = { λ f. record { constant = f.constant; factors = f.factors.items } };
}

impl Form {
    /// A copy, which takes its memory from `alloc`.
    pub fn copy(&self, alloc: Global) -> Result<Form, Lack>
        ensures { IfOk result (λ f. f ≡ self.now) }
    {
        Ok(Form {
            constant: self.constant,
            factors: Vec::from_slice(alloc, &self.factors)?,
        })
    }
}

#[tactic(auto, using(crate::proofs::Ends::dot_ended))]
fn dot(mut factors: &[u64], mut numbers: &[u64]) -> Result<u64, Lack>
    ensures { IfOk result (λ n. n ≡ dot factors.now numbers.now) }
{
    let mut total = 0;
    while let ([m, ms @ ..], [x, xs @ ..]) = (factors, numbers) {
        total = sum(total, product(*m, *x)?)?;
        factors = ms;
        numbers = xs;
    }
    Ok(total)
}

/// The form's value, where the variables are these numbers.
pub fn form_value(form: &Form, numbers: &[u64]) -> Result<u64, Lack>
    ensures { IfOk result (λ n. n ≡ form_value form.now numbers.now) }
{
    sum(form.constant, dot(&form.factors, numbers)?)
}

/// The number, which depends on no variable.
pub fn number(alloc: Global, n: u64) -> Form
    ensures { result ≡ number n }
{
    Form {
        constant: n,
        factors: Vec::new(alloc),
    }
}

/// The first variable alone.
pub fn first_variable(alloc: Global) -> Result<Form, Lack>
    ensures { IfOk result (λ f. f ≡ first_variable) }
{
    Ok(Form {
        constant: 0,
        factors: vec![in alloc; 1]?,
    })
}

fn push_sums(out: &mut Vec<u64>, mut left: &[u64], mut right: &[u64]) -> Result<(), Lack>
    ensures { IfOk result (λ _. out.new.items ≡ out.old.items ++ sums left.now right.now) }
{
    while let ([m, ms @ ..], [n, ns @ ..]) = (left, right) {
        out.push(sum(*m, *n)?)?;
        left = ms;
        right = ns;
    }
    out.extend_from_slice(left)?;
    Ok(out.extend_from_slice(right)?)
}

/// The sum of two forms.
pub fn plus(alloc: Global, left: &Form, right: &Form) -> Result<Form, Lack>
    ensures { IfOk result (λ f. f ≡ plus left.now right.now) }
{
    let mut factors = Vec::new(alloc);
    push_sums(&mut factors, &left.factors, &right.factors)?;
    Ok(Form {
        constant: sum(left.constant, right.constant)?,
        factors,
    })
}

/// The form `n` times.
pub fn times(alloc: Global, n: u64, form: &Form) -> Result<Form, Lack>
    ensures { IfOk result (λ f. f ≡ times n form.now) }
{
    let mut factors = Vec::new(alloc);
    for m in &form.factors {
        factors.push(product(n, *m)?)?;
    }
    Ok(Form {
        constant: product(n, form.constant)?,
        factors,
    })
}

/// The form over one variable more, which comes first.
pub fn lifted(alloc: Global, form: &Form) -> Result<Form, Lack>
    ensures { IfOk result (λ f. f ≡ lifted form.now) }
{
    let mut factors = vec![in alloc; 0]?;
    factors.extend_from_slice(&form.factors)?;
    Ok(Form {
        constant: form.constant,
        factors,
    })
}

#[tactic(auto, using(crate::proofs::Ends::combined_ended, crate::proofs::Totals::plus_assoc, crate::proofs::Totals::plus_none, crate::proofs::Totals::none_plus))]
fn combined(alloc: Global, mut factors: &[u64], mut forms: &[Form]) -> Result<Form, Lack>
    ensures { IfOk result (λ f. f ≡ combined factors.now forms.now) }
{
    let mut total = number(alloc, 0);
    while let ([m, ms @ ..], [form, others @ ..]) = (factors, forms) {
        total = plus(alloc, &total, &times(alloc, *m, form)?)?;
        factors = ms;
        forms = others;
    }
    Ok(total)
}

/// The form with forms for its variables.
pub fn substituted(alloc: Global, form: &Form, forms: &[Form]) -> Result<Form, Lack>
    ensures { IfOk result (λ f. f ≡ substituted form.now forms.now) }
{
    let rest = combined(alloc, &form.factors, forms)?;
    plus(alloc, &number(alloc, form.constant), &rest)
}

#[tactic(auto, using(crate::proofs::Ends::differences_ended))]
fn push_differences(out: &mut Vec<u64>, mut left: &[u64], mut right: &[u64]) -> Result<(), Lack>
    ensures { IfOk result (λ _. out.new.items ≡ out.old.items ++ differences left.now right.now) }
{
    while let ([m, ms @ ..], [n, ns @ ..]) = (left, right) {
        out.push(m.saturating_sub(*n))?;
        left = ms;
        right = ns;
    }
    Ok(out.extend_from_slice(left)?)
}

/// What has to be added to `right` so that it is `left`, where there is such a form: a difference below 0 is 0.
pub fn minus(alloc: Global, left: &Form, right: &Form) -> Result<Form, Lack>
    ensures { IfOk result (λ f. f ≡ minus left.now right.now) }
{
    let mut factors = Vec::new(alloc);
    push_differences(&mut factors, &left.factors, &right.factors)?;
    Ok(Form {
        constant: left.constant.saturating_sub(right.constant),
        factors,
    })
}

/// How often variable `j` is taken.
#[tactic(auto, using(crate::proofs::Ends::factor_listed))]
pub fn factor_at(factors: &[u64], j: u32) -> u64
    ensures { result ≡ factor_at factors.now j }
{
    match factors.get(j as usize) {
        Some(factor) => *factor,
        None => 0,
    }
}

/// The form with `by` more for variable `j`.
pub fn raised(alloc: Global, j: u32, by: u64, form: &Form) -> Result<Form, Lack>
    ensures { IfOk result (λ f. f ≡ raised j by form.now) }
{
    Ok(Form {
        constant: sum(form.constant, product(factor_at(&form.factors, j), by)?)?,
        factors: Vec::from_slice(alloc, &form.factors)?,
    })
}

/// Whether each factor is a multiple of `modulus`; of 0 only 0 is.
pub fn vanishes(modulus: u64, mut factors: &[u64]) -> bool
    ensures { result ≡ vanishes modulus factors.now }
{
    while let [m, rest @ ..] = factors {
        if remainder_by(*m, modulus) != 0 {
            return false;
        }
        factors = rest;
    }
    true
}

#[tactic(auto, using(crate::proofs::Ends::agree_ended, crate::proofs::Ends::vanishes_ended))]
fn agree(modulus: u64, mut left: &[u64], mut right: &[u64]) -> bool
    ensures { result ≡ agree modulus left.now right.now }
{
    while let ([m, ms @ ..], [n, ns @ ..]) = (left, right) {
        if remainder_by(*m, modulus) != remainder_by(*n, modulus) {
            return false;
        }
        left = ms;
        right = ns;
    }
    vanishes(modulus, left) && vanishes(modulus, right)
}

/// Whether constants and factors are the same as remainders by `modulus`, so that the numbers are, whatever the variables are; if it
/// is 0, as they are.
pub fn is_same(modulus: u64, left: &Form, right: &Form) -> bool
    ensures { result ≡ forms.is_same modulus left.now right.now }
{
    remainder_by(left.constant, modulus) == remainder_by(right.constant, modulus)
        && agree(modulus, &left.factors, &right.factors)
}
