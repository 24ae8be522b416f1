//! What holds of every source and every tree.
ghost use Rattle.lucid_top.specs.Laws.{OneTree, TreeIsNotRefused, OneTextRefusal, NamesAreNotRefused, OneNameRefusal, OneListOfInputs, OneFlatTable, TableIsNotRefused, OneFlatRefusal, OneCertificate, CertificateIsNotRefused, OneCertificateRefusal};

use lucid_cert_rules::one_why;
use lucid_flat::laws::one_table;
use lucid_parse::laws::{
    fault_is_unique, terminals_are_unique, terminals_spell_one_tree, tokens_spell_one_tree,
};
use lucid_scan::laws::{refusal_is_unique, tokens_are_not_refused, tokens_are_unique};
use lucid_scope::laws::least_fault_is_unique;

/// A source spells one tree or has one refusal, and not both; the names of a tree that is well made have no fault or one, and the tree
/// one list of free names. A source in the flat form spells one sound table or has one refusal, and not both.
pub fn one_verdict()
    ensures one_tree { OneTree }
    ensures not_refused { TreeIsNotRefused }
    ensures one_text_refusal { OneTextRefusal }
    ensures names_not_refused { NamesAreNotRefused }
    ensures one_name_refusal { OneNameRefusal }
    ensures one_list { OneListOfInputs }
    ensures one_flat_table { OneFlatTable }
    ensures table_not_refused { TableIsNotRefused }
    ensures one_flat_refusal { OneFlatRefusal }
    ensures one_certificate { OneCertificate }
    ensures certificate_not_refused { CertificateIsNotRefused }
    ensures one_certificate_refusal { OneCertificateRefusal }
{
    tokens_are_unique();
    tokens_are_not_refused();
    refusal_is_unique();
    terminals_are_unique();
    terminals_spell_one_tree();
    tokens_spell_one_tree();
    fault_is_unique();
    least_fault_is_unique();
    one_table();
    one_why();
}
