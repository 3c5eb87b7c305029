// Counting the plans, and printing them.
use rules::Width;

// What is printed goes to `rt`. What can't be written is left out, and the run goes on.
pub(crate) struct Report<'a, P: Print> {
    rt: &'a P,
    plans: u64,
    differ: u64,
}

impl<'a, P: Print> Report<'a, P> {
    pub(crate) fn new(rt: &'a P) -> Self {
        Report {
            rt,
            plans: 0,
            differ: 0,
        }
    }

    pub(crate) fn say(&self, text: &[u8]) {
        let _ = self.rt.write_all(text);
    }

    // How a plan came out, and its name.
    pub(crate) fn say_plan(&self, same: bool, name: &[u8]) {
        if same {
            self.say(b"ok ");
        } else {
            self.say(b"differs ");
        }
        self.say(name);
    }

    pub(crate) fn say_width(&self, width: Width) {
        let rt = self.rt;
        let bits = 8 * (compact::size(width) as u64);
        let _ = print!(rt; " at u{bits}");
    }

    // The bytes of a message, in hexadecimal.
    pub(crate) fn say_bytes(&self, bytes: &[u8]) {
        let rt = self.rt;
        self.say(b":");
        for byte in bytes {
            let _ = print!(rt; " {byte:02x}");
        }
    }

    pub(crate) fn say_refusal(&self, number: u32) {
        let rt = self.rt;
        let _ = print!(rt; " refused {number}");
    }

    // The end of a plan's line, and the plan counted.
    pub(crate) fn count(&mut self, same: bool) {
        self.say(b"\n");
        self.plans = self.plans.saturating_add(1);
        if !same {
            self.differ = self.differ.saturating_add(1);
        }
    }

    // The last line.
    pub(crate) fn end(self) {
        let Report { rt, plans, differ } = self;
        let _ = println!(rt; "{plans} plans, {differ} differ");
    }
}
