// The words that the computers send of themselves.

ghost use Rattle.std.specs.Prelude.{◌≡◌, codes};
ghost use Rattle.worked_rows.specs.Rows.{lines, words_written};
ghost use Rattle.worked_rows.specs.Books.{book_a, book_b, book_of_seventeen};

/// Phase 1 in the status word, and the first alert in the first group's.
#[tactic(auto, unfolding(ecam_spec::specs::Opened::opened, view_spec::specs::OpenedWords::opened_words))]
pub fn an_alert_is_told()
    ensures { words_written book_a (codes "W 0 0000041d/T/E/")
        ≡ lines (codes "W 15 80008002/W 15 00000482/T/E/") }
{}

/// While no computer is up, and after it nothing changes, no word is written.
#[tactic(auto, unfolding(ecam_spec::specs::Opened::opened, view_spec::specs::OpenedWords::opened_words))]
pub fn no_computer_is_up()
    ensures from_the_start { words_written book_a (codes "F 1/F 2/T/E/")
        ≡ lines (codes "W 15 a0000002/W 15 20000082/T/E/") }
    ensures later { words_written book_a (codes "W 0 0000041d/T/F 1/F 2/T/T/E/")
        ≡ lines (codes "W 15 80008002/W 15 00000482/T/W 15 a0000002/W 15 20000082/T/T/E/") }
{}

/// MASTER CAUT and the chime, which end by a press of MC: only the word that changes is written.
#[tactic(auto, unfolding(ecam_spec::specs::Opened::opened, view_spec::specs::OpenedWords::opened_words))]
pub fn lights_and_sound_are_told()
    ensures { words_written book_b (codes "W 0 0000041d/T/T/P MC/T/E/")
        ≡ lines (codes "W 15 80009802/W 15 00000482/T/T/W 15 80008002/T/E/") }
{}

/// The seventeenth alert begins a second group, which has the next SDI.
#[tactic(auto, unfolding(ecam_spec::specs::Opened::opened, view_spec::specs::OpenedWords::opened_words))]
pub fn a_second_group()
    ensures { words_written book_of_seventeen (codes "W 0 0000041d/T/E/")
        ≡ lines (codes "W 15 80008002/W 15 83fffc82/W 15 80000582/T/E/") }
{}
