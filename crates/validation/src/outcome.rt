// What validation answers: yes or no, the first test that fails, and the property after it.
ghost use Rattle.std.specs.Prelude.{◌≡◌};
ghost use Rattle.property.specs.Validate.{is_accepted, test_number, failed_test, settled};

use property::{Property, Validation, ValidationTest};

pub fn is_accepted(validation: Validation) -> bool
    ensures { result ≡ is_accepted validation }
{
    !matches!(validation, Validation::Rejected(_))
}

// By number, as `DescriptorsDecided` and C's verdict tell it.
fn test_number(test: ValidationTest) -> u64
    ensures { result ≡ test_number test }
{
    match test {
        ValidationTest::Extensible => 1,
        ValidationTest::Configurable => 2,
        ValidationTest::Enumerable => 3,
        ValidationTest::Kind => 4,
        ValidationTest::Get => 5,
        ValidationTest::Set => 6,
        ValidationTest::Writable => 7,
        ValidationTest::Value => 8,
    }
}

// The first test that fails, 0 where it is accepted.
pub fn failed_test(validation: Validation) -> u64
    ensures { result ≡ failed_test validation }
{
    match validation {
        Validation::Rejected(test) => test_number(test),
        Validation::Unchanged | Validation::Becomes(_) => 0,
    }
}

// The property after validation.
pub fn settled(current: Option<Property>, validation: Validation) -> Option<Property>
    ensures { result ≡ settled current validation }
{
    match validation {
        Validation::Rejected(_) | Validation::Unchanged => current,
        Validation::Becomes(property) => Some(property),
    }
}
