//! Worked examples.
ghost use Rattle.std.specs.Prelude.{◌≡◌, true, false, [], ◌∷◌, Some, None, codes};
ghost use Rattle.ldm_conf.specs.Confs.{all_times};
ghost use Rattle.ldm_words.specs.Forms.{act_form, cat_form, chain_form, file_form, insert_form, mon_form, node_form};
ghost use Rattle.ldm_words.specs.Forms.{notices_form, save_form, stats_form, wmo_form};

/// Worked examples of the words of `pqmon`. It does nothing.
pub fn worked_examples_of_pqmon()
    ensures by_default { mon_form []
        ≡ Some (record { every = None; peer = record { host = codes "127.0.0.1"; port = 388 } }) }
    ensures given { mon_form (codes "-q" ∷ codes "a:1" ∷ codes "-i5" ∷ [])
        ≡ Some (record { every = Some 5; peer = record { host = codes "a"; port = 1 } }) }
    ensures last_colon { mon_form (codes "-q=::1:65535" ∷ [])
        ≡ Some (record { every = None; peer = record { host = codes "::1"; port = 65535 } }) }
    ensures no_colon { mon_form (codes "-qa" ∷ []) ≡ None }
    ensures no_port { mon_form (codes "-qa:65536" ∷ []) ≡ None }
    ensures twice { mon_form (codes "-qa:1" ∷ codes "-qa:1" ∷ []) ≡ None }
    ensures no_second { mon_form (codes "-i0" ∷ []) ≡ None }
    ensures no_word { mon_form (codes "a:1" ∷ []) ≡ None }
    ensures no_help { mon_form (codes "--help" ∷ []) ≡ None }
{}

/// Worked examples of the words of `node`. It does nothing.
pub fn worked_examples_of_node()
    ensures by_default { node_form (codes "c" ∷ [])
        ≡ Some (record {
          arena = 67108864;
          slots = 16384;
          port = 388;
          workers = 4;
          sessions = 4294967295;
          idles = None;
          journal = None;
          ends_with_input = false;
          conf = codes "c";
        }) }
    ensures given { node_form
        (codes "-a4096" ∷ codes "-S8" ∷ codes "-p1" ∷ codes "c" ∷ codes "-w2" ∷ codes "-n1" ∷ codes "-x0" ∷ [])
        ≡ Some (record {
          arena = 4096;
          slots = 8;
          port = 1;
          workers = 2;
          sessions = 1;
          idles = Some 0;
          journal = None;
          ends_with_input = false;
          conf = codes
              "c";
        }) }
    ensures kept { node_form (codes "-q" ∷ codes "queue" ∷ codes "-e" ∷ codes "c" ∷ [])
        ≡ Some (record {
          arena = 67108864;
          slots = 16384;
          port = 388;
          workers = 4;
          sessions = 4294967295;
          idles = None;
          journal = Some (codes "queue");
          ends_with_input = true;
          conf = codes "c";
        }) }
    ensures no_journal { node_form (codes "c" ∷ codes "-q" ∷ []) ≡ None }
    ensures ends_twice { node_form (codes "-e" ∷ codes "-e" ∷ codes "c" ∷ []) ≡ None }
    ensures too_many_slots { node_form (codes "-S4294967296" ∷ codes "c" ∷ []) ≡ None }
    ensures leading_zero { node_form (codes "-w04" ∷ codes "c" ∷ []) ≡ None }
    ensures two_files { node_form (codes "c" ∷ codes "d" ∷ []) ≡ None }
    ensures no_file { node_form [] ≡ None }
{}

/// Worked examples of the words of `pqinsert`. It does nothing.
pub fn worked_examples_of_pqinsert()
    ensures by_default { insert_form (codes "f" ∷ codes "g" ∷ [])
        ≡ Some (record {
          feed = 0x4000_0000;
          ident = None;
          origin = codes "localhost";
          sign_ident = false;
          peer = record { host = codes "127.0.0.1"; port = 388 };
          files = codes "f" ∷ codes "g" ∷ [];
        }) }
    ensures given { insert_form
        (codes "-i" ∷ codes "f" ∷ codes "-fDDS|IDS" ∷ codes "-p" ∷ codes "" ∷ codes "-o=h" ∷ codes "-qa:1" ∷ [])
        ≡ Some (record {
          feed = 10;
          ident = Some [];
          origin = codes "h";
          sign_ident = true;
          peer = record { host = codes "a"; port = 1 };
          files = codes "f" ∷ [];
        }) }
    ensures zero_byte { insert_form (codes "-pa\0" ∷ codes "f" ∷ []) ≡ None }
    ensures no_feed { insert_form (codes "-fDD" ∷ codes "f" ∷ []) ≡ None }
    ensures no_file { insert_form (codes "-i" ∷ []) ≡ None }
{}

/// Worked examples of the words of `pqcat` and `pqact`. It does nothing.
pub fn worked_examples_of_classes()
    ensures by_default { cat_form []
        ≡ Some (record {
          class = all_times 0xffff_ffff
              (codes ".*");
          count = None;
          arena = 67108864;
          slots = 16384;
          peer = record { host = codes "127.0.0.1"; port = 388 };
        }) }
    ensures given { act_form (codes "-fIDS" ∷ codes "-p^S" ∷ codes "c" ∷ codes "-c2" ∷ codes "a:1" ∷ [])
        ≡ Some (record {
          class = all_times 8
              (codes "^S");
          count = Some 2;
          arena = 67108864;
          slots = 16384;
          state = None;
          conf = codes "c";
          peer = record { host = codes "a"; port = 1 };
        }) }
    ensures state { act_form (codes "-p^S" ∷ codes "-s" ∷ codes "d" ∷ codes "c" ∷ codes "a:1" ∷ [])
        ≡ Some (record {
          class = all_times 0xffff_ffff
              (codes "^S");
          count = None;
          arena = 67108864;
          slots = 16384;
          state = Some (codes "d");
          conf = codes "c";
          peer = record { host = codes "a"; port = 1 };
        }) }
    ensures two_states { act_form (codes "-sd" ∷ codes "-se" ∷ codes "c" ∷ codes "a:1" ∷ []) ≡ None }
    ensures sizes { cat_form (codes "-a4096" ∷ codes "-fIDS" ∷ codes "-p^S" ∷ codes "-S8" ∷ codes "-qa:1" ∷ [])
        ≡ Some (record {
          class = all_times 8
              (codes "^S");
          count = None;
          arena = 4096;
          slots = 8;
          peer = record { host = codes "a"; port = 1 };
        }) }
    ensures too_many_slots { act_form (codes "-S4294967296" ∷ codes "c" ∷ codes "a:1" ∷ []) ≡ None }
    ensures no_count { cat_form (codes "-c0" ∷ []) ≡ None }
    ensures no_pattern { cat_form (codes "-p(" ∷ []) ≡ None }
    ensures no_peer { act_form (codes "c" ∷ []) ≡ None }
{}

/// Worked examples of the words of `notifyme`. It does nothing.
pub fn worked_examples_of_notifyme()
    ensures by_default { notices_form []
        ≡ Some (record {
          class = all_times 0xffff_ffff
              (codes ".*");
          count = None;
          text = false;
          peer = record { host = codes "127.0.0.1"; port = 388 };
        }) }
    ensures given { notices_form (codes "-tfIDS" ∷ codes "-c2" ∷ codes "-qa:1" ∷ [])
        ≡ Some (record {
          class = all_times 8
              (codes ".*");
          count = Some 2;
          text = true;
          peer = record { host = codes "a"; port = 1 };
        }) }
    ensures twice { notices_form (codes "-t" ∷ codes "-t" ∷ []) ≡ None }
    ensures with_value { notices_form (codes "-t" ∷ codes "1" ∷ []) ≡ None }
{}

/// Worked examples of the words of `chain`. It does nothing.
pub fn worked_examples_of_chain()
    ensures without_conf { chain_form (codes "4096" ∷ codes "8" ∷ codes "0" ∷ codes "IDS" ∷ codes "^S" ∷ [])
        ≡ Some (record {
          conf = None;
          arena = 4096;
          slots = 8;
          max_hereis = 0;
          classes = all_times 8 (codes "^S")
              ∷ [];
        }) }
    ensures with_conf { chain_form
        (codes "-a" ∷ codes "c" ∷ codes "1" ∷ codes "2" ∷ codes "3" ∷ codes "ANY" ∷ codes ".*" ∷ codes "IDS" ∷ codes ""
        ∷ [])
        ≡ Some (record {
          conf = Some (codes "c");
          arena = 1;
          slots = 2;
          max_hereis = 3;
          classes = all_times 0xffff_ffff
              (codes ".*") ∷ all_times 8 [] ∷ [];
        }) }
    ensures conf_behind { chain_form
        (codes "1" ∷ codes "2" ∷ codes "3" ∷ codes "ANY" ∷ codes ".*" ∷ codes "-a" ∷ codes "c" ∷ []) ≡ None }
    ensures no_conf { chain_form (codes "-a" ∷ []) ≡ None }
    ensures no_class { chain_form (codes "1" ∷ codes "2" ∷ codes "3" ∷ []) ≡ None }
    ensures no_pattern { chain_form (codes "1" ∷ codes "2" ∷ codes "3" ∷ codes "ANY" ∷ []) ≡ None }
    ensures too_many_slots { chain_form (codes "1" ∷ codes "4294967296" ∷ codes "3" ∷ codes "ANY" ∷ codes ".*" ∷ [])
        ≡ None }
{}

/// Worked examples of the words of `wmo`. It does nothing.
pub fn worked_examples_of_wmo()
    ensures by_default { wmo_form [] ≡ Some (record {
      feed = 8;
      origin = codes "localhost";
      socket = false;
      peer = record { host = codes "127.0.0.1"; port = 388 };
    }) }
    ensures given { wmo_form (codes "-fDDS" ∷ codes "-o" ∷ codes "h" ∷ codes "-qa:1" ∷ [])
        ≡ Some (record { feed = 2; origin = codes "h"; socket = false; peer = record { host = codes "a"; port = 1 } }) }
    ensures socket { wmo_form (codes "-s" ∷ []) ≡ Some (record {
      feed = 8;
      origin = codes "localhost";
      socket = true;
      peer = record { host = codes "127.0.0.1"; port = 388 };
    }) }
    ensures socket_twice { wmo_form (codes "-s" ∷ codes "-s" ∷ []) ≡ None }
    ensures zero_byte { wmo_form (codes "-oa\0" ∷ []) ≡ None }
    ensures no_word { wmo_form (codes "f" ∷ []) ≡ None }
{}

/// Worked examples of the words of `pqstats`. It does nothing.
pub fn worked_examples_of_pqstats()
    ensures by_default { stats_form []
        ≡ Some (record {
          class = all_times 0xffff_ffff
              (codes ".*");
          count = None;
          hours = 24;
          send = false;
          peer = record { host = codes "127.0.0.1"; port = 388 };
        }) }
    ensures given { stats_form
        (codes "-s" ∷ codes "-w8760" ∷ codes "-c2" ∷ codes "-fIDS" ∷ codes "-p^S" ∷ codes "-qa:1" ∷ [])
        ≡ Some (record {
          class = all_times 8
              (codes "^S");
          count = Some 2;
          hours = 8760;
          send = true;
          peer = record { host = codes "a"; port = 1 };
        }) }
    ensures no_hour { stats_form (codes "-w0" ∷ []) ≡ None }
    ensures too_many_hours { stats_form (codes "-w8761" ∷ []) ≡ None }
    ensures twice { stats_form (codes "-s" ∷ codes "-s" ∷ []) ≡ None }
{}

/// Worked examples of the words of `save`, and of those of `resume` and `pqcheck`. It does nothing.
pub fn worked_examples_of_files()
    ensures save { save_form (codes "q" ∷ codes "168" ∷ codes "10" ∷ [])
        ≡ Some (record { file = codes "q"; arena = 168; slots = 10 }) }
    ensures dash { save_form (codes "--" ∷ codes "-q" ∷ codes "168" ∷ codes "10" ∷ [])
        ≡ Some (record { file = codes "-q"; arena = 168; slots = 10 }) }
    ensures no_slots { save_form (codes "q" ∷ codes "168" ∷ []) ≡ None }
    ensures too_many_slots { save_form (codes "q" ∷ codes "168" ∷ codes "4294967296" ∷ []) ≡ None }
    ensures file { file_form (codes "q" ∷ []) ≡ Some (codes "q") }
    ensures no_file { file_form [] ≡ None }
    ensures two_files { file_form (codes "q" ∷ codes "r" ∷ []) ≡ None }
    ensures no_option { file_form (codes "-q" ∷ []) ≡ None }
{}
