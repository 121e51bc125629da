// Fault matrices: polynomials in two unknowns, of voter faults and of module faults, modulo 2^64.
#![tactic(auto)]

mod matrix;

pub use matrix::FaultMatrix;

#[cfg(test)]
mod tests {
    use super::*;
    use algebra::{Scale, Weight};

    // Of the square of 2^63 plus a voter fault, only the square of the voter fault is left modulo 2^64.
    #[test]
    fn squares_and_prints(rt: HostRuntime) {
        let mut entries = [0; 272];
        entries[0] = 1 << 63;
        entries[16] = 1;
        let sum = FaultMatrix::new(entries);
        let square = sum.times(&sum);
        assert_eq!(rt; square.entry(1, 0), Some(0));
        assert_eq!(rt; square.entry(2, 0), Some(1));
        assert_eq!(rt; square.entry(17, 0), None);
        assert!(rt; square.write(&mut [0; 542]).is_err());
        let mut buffer = [b'-'; 544];
        assert_eq!(rt; square.write(&mut buffer), Ok(543));
        assert_eq!(rt; &buffer[62..67], b"0 1 0".as_slice());
        assert_eq!(rt; &buffer[541..], b" 0-".as_slice());
    }
}
