//! What holds of the whole table.
ghost use Rattle.std.specs.Prelude.{◌≡◌, ℤ, pos, IsTrue, is_some};
ghost use Rattle.kp_schema.specs.Laws.{are_nested, are_rising, deepen_at_arrays, has_versions_of, InEachMessage, InEachRow, InEachVersion, is_text_if_marked};
ghost use Rattle.kp_schema.specs.Messages.{fields_of, is_supported, messages};
ghost use Rattle.kp_schema.specs.declared.dir.Dir.{Dir};

/// The laws of the table. A call does nothing but give them to its caller's proof.
pub fn table_laws()
    // Each key stands once. Fields are there exactly where `supported` lists the key and the
    // version, in both directions. ApiVersions is listed from its first version on, in which a
    // broker answers a client whose version it doesn't know (KIP-511).
    ensures keys_rise { IsTrue (are_rising messages) }
    ensures supported { (key version : ℤ) (dir : Dir) →
        is_some (fields_of key version dir) ≡ is_supported key version }
    ensures api_versions { IsTrue (is_supported (pos 18) (pos 0)) }

    // A row keeps to the versions of its message, and marks stand on texts.
    ensures versions { InEachRow has_versions_of }
    ensures marks { InEachRow is_text_if_marked }

    // The depths of a message make a tree, as it is written and in each version by itself: they grow
    // by one right behind an array and nowhere else, and no field outlives the array that it lies in.
    ensures depths { InEachMessage deepen_at_arrays }
    ensures depths_in_version { InEachVersion deepen_at_arrays }
    ensures nested { InEachMessage are_nested }
    ensures nested_in_version { InEachVersion are_nested }
{}
