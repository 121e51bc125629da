// Two scales: counts modulo 2^64, and hours.
#![tactic(auto)]

mod count;
mod hours;

pub use count::Count;
pub use hours::Hours;

#[cfg(test)]
mod tests {
    use super::*;
    use algebra::{Scale, Weight};

    #[test]
    fn counts_wrap(rt: HostRuntime) {
        let most = Count { n: u64::MAX };
        assert_eq!(rt; most.plus(&Count::unit()), Count { n: 0 });
        assert_eq!(rt; most.times(&most), Count { n: 1 });
    }

    #[test]
    fn hours_are_held(rt: HostRuntime) {
        let most = Hours(Some(u32::MAX));
        let mut buffer = [b'.'; 11];
        assert!(rt; most.times(&most).write(&mut buffer).is_ok());
        assert_eq!(rt; buffer, *b"4294967295.");
    }
}
