//! What a pattern asks of a state.
ghost use Rattle.std.specs.Prelude.{◌≡◌, IfOk};

use crate::facts::{Fact, Subject};
use std::alloc::{AllocError, Global};
use std::marker::Model;

/// That all of these facts are so of a thing, or of some thing of a kind.
#[derive(Drop)]
pub struct Asked {
    subject: Subject,
    facts: Vec<Fact>,
}

impl Model for Asked {
    ghost use Rattle.fmp_facts.specs.Asking as spec;

    ghost Value = { spec.Asked };

    ghost view = { λ a. record { subject = a.subject; facts = a.facts.items } };
}

impl Asked {
    /// That these facts are so of the subject, at the same time.
    pub fn new(subject: Subject, facts: Vec<Fact>) -> Asked
        ensures { result ≡ record { subject = subject; facts = facts.items } }
    {
        Asked { subject, facts }
    }

    /// Of what it is asked.
    pub fn subject(&self) -> Subject
        ensures { result ≡ self.now.subject }
    {
        self.subject
    }

    /// The facts, of which each has to be so.
    pub fn facts(&self) -> &[Fact]
        ensures { result.now ≡ self.now.facts }
    {
        &self.facts
    }

    /// The same once more. The error is want of memory.
    pub fn copy(&self, alloc: Global) -> Result<Asked, AllocError>
        ensures { IfOk result (λ a. a ≡ self.now) }
    {
        Ok(Asked {
            subject: self.subject,
            facts: Vec::from_slice(alloc, &self.facts)?,
        })
    }
}

/// Several of these, of which one has to be so.
#[derive(Drop)]
pub struct Choice {
    asked: Vec<Asked>,
}

impl Model for Choice {
    ghost use Rattle.std.specs.Prelude.{List};
    ghost use Rattle.fmp_facts.specs.Asking as spec;

    ghost Value = { List spec.Asked };

    ghost view = { λ c. c.asked.items };
}

impl Choice {
    /// That one of these is so.
    pub fn new(asked: Vec<Asked>) -> Choice
        ensures { result ≡ asked.items }
    {
        Choice { asked }
    }

    /// Those of which one has to be so.
    pub fn asked(&self) -> &[Asked]
        ensures { result.now ≡ self.now }
    {
        &self.asked
    }

    /// The same once more. The error is want of memory.
    pub fn copy(&self, alloc: Global) -> Result<Choice, AllocError>
        ensures { IfOk result (λ c. c ≡ self.now) }
    {
        let mut asked = Vec::new(alloc);
        for one in self.asked.iter() {
            asked.push(one.copy(alloc)?)?;
        }
        Ok(Choice { asked })
    }
}
