ghost use Rattle.std.specs.Prelude.{◌≡◌, ◌↔◌, IfOk, IsTrue};
ghost use Rattle.std.specs.Option.{option_copied};
ghost use Rattle.og_types.specs.Names.{name_of, case_of, same_family, same_enums};

use og_list::{List, Text};
use std::alloc::{AllocError, Global};

/// An enum's name and the names of its cases, in order.
#[derive(Debug, Drop)]
pub struct Family {
    /// The enum's name.
    pub name: Text,
    /// The names of its cases.
    pub cases: List<Text>,
}

/// The names of all enums and of their cases, in order.
#[derive(Debug, Drop)]
pub struct Enums {
    /// The enums, each at the place of its number.
    pub families: List<Family>,
}

impl Family {
    /// An equal family, in memory of its own.
    pub fn copy(&self, alloc: Global) -> Result<Family, AllocError>
        ensures { IfOk result (λ made. made ≡ self.now) }
    {
        let name = self.name.copy(alloc)?;
        let mut cases = List::new(alloc);
        'cases: for case in self.cases.as_slice() {
            cases.add(case.copy(alloc)?)?;
        }
        Ok(Family { name, cases })
    }

    /// Whether the two families are equal.
    fn is_same(&self, other: &Family) -> bool
        ensures { result ≡ same_family self.now other.now }
    {
        self.name == other.name && self.cases == other.cases
    }
}

impl Enums {
    /// The name of the enum with this number, or `None` where there is no such enum.
    pub fn name(&self, family: u32) -> Option<&str>
        ensures { option_copied result ≡ name_of self.now family }
    {
        match self.families.get(family as usize) {
            Some(found) => Some(found.name.as_str()),
            None => None,
        }
    }

    /// The name of the enum's case at this index, or `None` where there is no such case.
    pub fn case(&self, family: u32, index: u32) -> Option<&str>
        ensures { option_copied result ≡ case_of self.now family index }
    {
        match self.families.get(family as usize) {
            Some(found) => match found.cases.get(index as usize) {
                Some(name) => Some(name.as_str()),
                None => None,
            },
            None => None,
        }
    }

    /// Equal names, in memory of their own.
    pub fn copy(&self, alloc: Global) -> Result<Enums, AllocError>
        ensures { IfOk result (λ made. made ≡ self.now) }
    {
        let mut families = List::new(alloc);
        'families: for family in self.families.as_slice() {
            families.add(family.copy(alloc)?)?;
        }
        Ok(Enums { families })
    }
}

/// `==` answers true exactly at equal families: those of one name, with the same names of cases.
impl PartialEq for Family {
    ghost use Rattle.og_types.specs.Names.{same_family};
    ghost use Rattle.og_types.specs.laws.EnumsEquality.{family_decides};
    ghost use Rattle.std.specs.Cmp.{decided, partial_equiv_from_equiv};

    ghost eq = { same_family };

    ghost laws = { partial_equiv_from_equiv (decided same_family family_decides) };

    #[tactic(auto, using(crate::specs::laws::EnumsEquality::family_decides))]
    fn eq(&self, other: &Family) -> bool
        ensures same { result ≡ same_family self.now other.now }
        ensures equal { IsTrue result ↔ (self.now ≡ other.now) }
    {
        self.is_same(other)
    }
}

impl Eq for Family {
    ghost use Rattle.og_types.specs.Names.{same_family};
    ghost use Rattle.og_types.specs.laws.EnumsEquality.{family_decides};
    ghost use Rattle.std.specs.Cmp.{decided};

    ghost laws = { decided same_family family_decides };
}

/// `==` answers true exactly at equal names: the same enums with the same cases, in one order.
impl PartialEq for Enums {
    ghost use Rattle.og_types.specs.Names.{same_enums};
    ghost use Rattle.og_types.specs.laws.EnumsEquality.{enums_decide};
    ghost use Rattle.std.specs.Cmp.{decided, partial_equiv_from_equiv};

    ghost eq = { same_enums };

    ghost laws = { partial_equiv_from_equiv (decided same_enums enums_decide) };

    #[tactic(auto, using(crate::specs::laws::EnumsEquality::enums_decide))]
    fn eq(&self, other: &Enums) -> bool
        ensures same { result ≡ same_enums self.now other.now }
        ensures equal { IsTrue result ↔ (self.now ≡ other.now) }
    {
        self.families == other.families
    }
}

impl Eq for Enums {
    ghost use Rattle.og_types.specs.Names.{same_enums};
    ghost use Rattle.og_types.specs.laws.EnumsEquality.{enums_decide};
    ghost use Rattle.std.specs.Cmp.{decided};

    ghost laws = { decided same_enums enums_decide };
}
