// The rules of a case in our codes.

ghost use Rattle.std.specs.Prelude.{◌≡◌, ◌<◌, ◌≤◌, ◌*◌, length};
ghost use Rattle.files.specs.Case.{rule_bytes, rule_of};
ghost use Rattle.bytes_in.specs.Records.{record_at};
ghost use Rattle.case_records.specs.Values.{the_rule};

use crate::Rule;

// The first `count` records of a body of rules.
#[derive(Clone, Copy)]
pub struct Rules<'a> {
    pub body: &'a [u8],
    pub count: usize,
    pub ghost rules_lent: { count * 5 ≤ length body.now },
}

impl<'a> Rules<'a> {
    // Rule number i.
    pub fn rule_at(&self, i: usize) -> Rule
        requires { i < self.now.count }
        ensures { the_rule result ≡ rule_of (rule_bytes (record_at 5 i self.now.body.now)) }
    {
        crate::rule_at(self.body, i)
    }
}
