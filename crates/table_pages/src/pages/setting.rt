//! What is set before pages are shown.
ghost use Rattle.std.specs.Prelude.{◌≡◌, true};

use super::TablePages;
use crate::line_server::LineServer;
use crate::seconds::Seconds;

impl<T: LineServer, K: Seconds> TablePages<T, K> {
    /// From now on players are told of other tables.
    pub fn open_boards(&mut self)
        ensures open { self.new.is_open ≡ true }
        ensures server { self.new.server ≡ self.old.server }
        ensures fixed { (self.new.names ≡ self.old.names) × (self.new.texts ≡ self.old.texts) × (self.new.people ≡ self.old.people) }
        ensures wishes { self.new.wishes ≡ self.old.wishes }
        ensures wrong { self.new.wrong ≡ self.old.wrong }
        ensures desk { self.new.desk ≡ self.old.desk }
    {
        self.is_open = true;
    }

    /// From now on these lines tell the names of the players.
    pub fn show_names(&mut self, people: Vec<u8>)
        ensures people { self.new.people ≡ people }
        ensures server { self.new.server ≡ self.old.server }
        ensures fixed { (self.new.names ≡ self.old.names) × (self.new.texts ≡ self.old.texts) }
        ensures wishes { self.new.wishes ≡ self.old.wishes }
        ensures wrong { self.new.wrong ≡ self.old.wrong }
        ensures beside { (self.new.is_open ≡ self.old.is_open) × (self.new.desk ≡ self.old.desk) }
    {
        self.people = people;
    }
}
