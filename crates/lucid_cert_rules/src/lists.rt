//! The lists of a certificate.
ghost use Rattle.std.specs.Prelude.{◌≡◌, map};
ghost use Rattle.lucid_cert_rules.specs.Certificates.{plain_judgment};

use crate::rows::{ContextRow, JudgmentRow};
use lucid_lists::Items;
use std::marker::Model;

/// The contexts of a certificate but the empty one.
pub type ContextRows = Items<ContextRow>;

/// The judgments of a certificate. They are seen as their plain forms.
#[derive(Drop)]
pub struct JudgmentRows {
    items: Vec<JudgmentRow>,
}

impl Model for JudgmentRows {
    ghost use Rattle.std.specs.Prelude.{List, map};
    ghost use Rattle.std.specs.Coded.{coded_list};
    ghost use Rattle.lucid_cert_rules.specs.Certificates.{PlainJudgment, coded_judgment};

    ghost Value = { List PlainJudgment };

    ghost coded = { coded_list coded_judgment };

    ghost use Rattle.lucid_cert_rules.specs.Certificates.{plain_judgment};

    ghost view = { λ l. map plain_judgment l.items.items };
}

impl JudgmentRows {
    /// The list of these items. It takes no memory.
    pub fn from_vec(items: Vec<JudgmentRow>) -> JudgmentRows
        ensures { result ≡ map plain_judgment items.items }
    {
        JudgmentRows { items }
    }

    /// The items, in order.
    pub fn items(&self) -> &[JudgmentRow]
        ensures { map plain_judgment result.now ≡ self.now }
    {
        self.items.as_slice()
    }
}
