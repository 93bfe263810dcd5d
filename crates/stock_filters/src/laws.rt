ghost use Rattle.std.specs.Prelude.{ℕ, ℤ, pos, Bool, List, Option, IsTrue};
ghost use Rattle.kp_schema.specs.Messages.{is_supported};
ghost use Rattle.stock_filters.specs.FieldsOfCreateTopics.{FindsTopicNames, KeepsFlagged, AnswersRefused};
ghost use Rattle.stock_filters.specs.FieldsOfProduce.{ChangesAcks, FindsListed, DeniesEach};
ghost use Rattle.stock_filters.specs.FieldsOfMetadata.{FindsKnown};
ghost use Rattle.tree_spelling.specs.declared.primitive.Primitive.{Primitive};
ghost use Rattle.stock_filters.specs.FieldsOfGroups.{FindsIds, FindsDead, LeavesGroupsOut};

/// Law: which fields the filters find in a message's items, in each version in which they read it. It has an empty
/// body.
pub fn fields_law()
    // CreateTopics: the names of the topics. What goes on has the allowed ones, and what is answered the refused ones.
    ensures new_topics { (version : ℤ) → IsTrue (is_supported (pos 19) version) → FindsTopicNames version }
    ensures allowed { (flags : List Bool) (version : ℤ) → IsTrue (is_supported (pos 19) version) → KeepsFlagged flags version }
    ensures refused { (error : ℤ) (names : List (Option (List ℕ))) (version : ℤ) → IsTrue (is_supported (pos 19) version) → AnswersRefused error names version }

    // Produce: acks, and the names of the topics. What is answered has those topics.
    ensures acks { (version : ℤ) → IsTrue (is_supported (pos 0) version) → ChangesAcks version }
    ensures listed { (listed : List (List ℕ)) (version : ℤ) → IsTrue (is_supported (pos 0) version) → FindsListed listed version }
    ensures denied { (version : ℤ) → IsTrue (is_supported (pos 0) version) → DeniesEach version }

    // The response to Metadata: the errors and the names of the topics.
    ensures known { (name : List ℕ) → FindsKnown name }

    // The response to ListGroups: the ids of the groups, and what is left of it.
    ensures ids { (version : ℤ) → IsTrue (is_supported (pos 16) version) → FindsIds version }
    ensures live { (described : List Primitive) (version : ℤ) → IsTrue (is_supported (pos 16) version) → LeavesGroupsOut described version }

    // The response to DescribeGroups: the ids and the states of the groups.
    ensures dead { (id : List ℕ) → FindsDead id }
{}
