//! The syndromes of a word of bits, by a table.

ghost use Rattle.std.specs.Prelude.{◌≡◌, ℕ, ◌+◌, ◌*◌, ◌/◌, ◌%◌, ◌^◌, ◌<◌, length};
ghost use Rattle.p25_gf64.specs.{Field.{power}, Symbol.{alpha, number}, Gf64.{gf64}};
ghost use Rattle.p25_algebra.specs.Series.{coefficient};
ghost use Rattle.p25_reed_solomon.specs.BitValues.{number_value};

use p25_bits::sums;
use p25_gf64::Sym;

// The values of v · x^(4 · position) at α^(8 · part + 1) to α^(8 · part + 8), at 3 · position + part and v, for each
// position below 16, each part below 3 and each v below 16: eight symbols in the eight octets of a number, the lowest
// first. The entries of 8, 4, 2 and 1 are enough to make all.
static VALUES: [[u64; 16]; 48] = [
    sums! { 0x113B_0F28_0518_0308, 0x1314_0530_0C03_1004, 0x0C06_0320_1008_0402, 0x0101_0101_0101_0101 },
    sums! { 0x0D19_3A36_1612_330E, 0x0933_1C07_1135_3C0F, 0x1328_140A_0523_3018, 0x0101_0101_0101_0101 },
    sums! { 0x1803_0801_393E_172B, 0x0D32_2D3A_2F1B_1624, 0x1129_353B_3C1E_0F26, 0x0101_0101_0101_0101 },
    sums! { 0x1F1A_3A0B_1C3B_1406, 0x0D3A_1633_110F_0503, 0x2F0B_3322_3C28_3020, 0x091C_113C_1305_0C10 },
    sums! { 0x1A3A_0B1C_3B14_0601, 0x120E_3B28_1808_3917, 0x2605_0604_392E_3419, 0x0239_1F15_0D2D_2F16 },
    sums! { 0x3A0B_1C3B_1406_011F, 0x0F05_0301_3E2B_1936, 0x3E15_273A_2C09_0E35, 0x1238_223B_260A_1820 },
    sums! { 0x2214_082E_2D12_3523, 0x2606_3934_2F33_3C30, 0x1801_1719_160E_0F18, 0x021F_0D2F_0911_130C },
    sums! { 0x3436_1C26_033F_2716, 0x2411_1410_3E27_2C0E, 0x0F18_0117_1916_0E0F, 0x043E_1A1D_1222_2618 },
    sums! { 0x0502_2A3A_253C_1831, 0x2B1D_253B_2302_172D, 0x0E0F_1801_1719_160E, 0x083F_343A_2407_0F30 },
    sums! { 0x3E3A_0E05_3919_3328, 0x1A0B_3B06_1F3A_1C14, 0x1D1C_2804_1536_070A, 0x123B_1839_0D16_1105 },
    sums! { 0x2B16_3B03_1736_1118, 0x0B3B_061F_3A1C_1401, 0x1E03_1F37_3326_1017, 0x0817_3A33_0F03_3E19 },
    sums! { 0x1933_2801_0D12_0F08, 0x3B06_1F3A_1C14_011A, 0x3927_243B_0C3F_1909, 0x1611_0501_2B36_0E28 },
    sums! { 0x0706_2B09_0A3E_1B1E, 0x0F01_190E_1817_160F, 0x301F_3635_202B_2426, 0x041A_1226_020D_0913 },
    sums! { 0x1512_143F_363C_0219, 0x160F_0119_0E18_1716, 0x3C08_1A09_2831_2D0E, 0x102B_0B1E_0834_240F },
    sums! { 0x283D_2F3B_0432_0E0C, 0x1716_0F01_190E_1817, 0x330A_3D3A_220C_172C, 0x032A_2C3B_2015_163C },
    sums! { 0x3F0B_0515_3803_3229, 0x341C_0327_2208_2D35, 0x3A3B_013A_3B01_3A3B, 0x2414_3E2C_2639_2F3C },
    sums! { 0x2A33_0627_1102_1D0F, 0x2C28_1F24_052A_2518, 0x3B01_3A3B_013A_3B01, 0x200D_1C0C_2B25_2317 },
    sums! { 0x0D22_043A_1E3D_160A, 0x1104_373B_212F_0F3D, 0x013A_3B01_3A3B_013A, 0x361E_213A_3504_1922 },
    sums! { 0x0E01_1618_190F_170E, 0x1E1F_3310_1D28_1507, 0x231A_1121_2C05_3422, 0x083A_0F3E_1218_0D11 },
    sums! { 0x170E_0116_1819_0F17, 0x1B05_1A29_3924_0C19, 0x3539_0B30_0D29_3116, 0x0319_3B39_1605_2B0E },
    sums! { 0x0F17_0E01_1618_190F, 0x3E25_203A_132A_0E02, 0x120C_323B_3D24_1827, 0x180D_1101_3628_1733 },
    sums! { 0x3D1C_3938_3133_2125, 0x2B3B_1711_3E0E_3933, 0x3714_0D1E_2A11_3F38, 0x0B06_3A14_1A3B_1F1C },
    sums! { 0x2E11_1F22_3E07_3F0E, 0x3618_3A05_1928_0D0F, 0x293E_1C21_1210_1B18, 0x063A_141A_3B1F_1C01 },
    sums! { 0x2B3C_153B_2A35_1729, 0x0E39_3301_1208_1603, 0x082C_0C3A_0A27_0F15, 0x3A14_1A3B_1F1C_010B },
    sums! { 0x1C1F_3B1A_143A_060B, 0x3C1A_282D_3036_2024, 0x053A_1836_0316_0812, 0x100B_0824_0412_0209 },
    sums! { 0x1F3B_1A14_3A06_0B01, 0x2F03_0B02_333D_2217, 0x1117_3B2B_0F0D_2819, 0x0C36_061B_032C_2016 },
    sums! { 0x3B1A_143A_060B_011C, 0x3907_2E3B_3413_1923, 0x1608_1201_3339_0E3E, 0x0537_233A_301D_182F },
    sums! { 0x393B_1903_3317_2836, 0x1514_3602_072B_0A1B, 0x2D06_123D_350D_232C, 0x1601_0E17_0F19_1816 },
    sums! { 0x3E0F_3A08_0E2B_0516, 0x1D08_1C2A_282F_040E, 0x222B_142F_0838_2E0F, 0x1816_010E_170F_1918 },
    sums! { 0x1728_3601_110D_1812, 0x332E_263A_1038_1713, 0x0309_3F3B_2730_1621, 0x1918_1601_0E17_0F19 },
    sums! { 0x381A_0307_3208_2937, 0x3B3A_013B_3A01_3B3A, 0x0A0B_3E13_1B39_1E1D, 0x201C_2B23_243E_262F },
    sums! { 0x3F28_0B2E_0509_1518, 0x3A01_3B3A_013B_3A01, 0x070D_0638_2B30_0917, 0x3012_1F13_3621_3519 },
    sums! { 0x112D_023B_1D31_0F1B, 0x013B_3A01_3B3A_013B, 0x3631_3C3A_0229_1910, 0x281B_313B_2D10_0E34 },
    sums! { 0x3114_3332_2128_2527, 0x2A06_111D_3F05_3832, 0x1901_0F16_1718_0E19, 0x2C1F_0525_3403_222D },
    sums! { 0x3D05_1C2D_390A_3819, 0x3739_1425_0D04_1E16, 0x0E19_010F_1617_180E, 0x2333_1A20_1137_210F },
    sums! { 0x3E30_073A_3F23_0E37, 0x1234_103B_1B2E_1807, 0x180E_1901_0F16_1718, 0x0D10_293A_3126_162E },
    sums! { 0x333A_1708_280E_362B, 0x350B_0D31_2311_2C34, 0x141C_3A1F_063B_0B1A, 0x033B_162B_080F_120D },
    sums! { 0x3918_3B12_193E_030F, 0x2D3E_063C_1232_3D18, 0x1C3A_1F06_3B0B_1A01, 0x050E_3A3E_1811_3617 },
    sums! { 0x0E36_2B01_0511_160D, 0x0813_383A_2E20_0F25, 0x3A1F_063B_0B1A_0114, 0x0F12_0D01_2833_1939 },
    sums! { 0x2106_2829_2536_272E, 0x1701_180F_0E16_1917, 0x321F_080A_2912_372A, 0x1B1A_390C_1E33_1D15 },
    sums! { 0x3103_1435_331B_3217, 0x1917_0118_0F0E_1619, 0x3836_1A3D_0313_0716, 0x0A11_0B32_3E20_130E },
    sums! { 0x3920_0A3B_382C_192A, 0x1619_1701_180F_0E16, 0x0535_093A_1521_181E, 0x2B21_303B_0937_1704 },
    sums! { 0x250B_3637_272B_2E3D, 0x291C_121B_370D_2A3F, 0x283B_0E12_3619_2B3E, 0x0614_3B1C_0B3A_1A1F },
    sums! { 0x2108_0623_281E_290E, 0x322B_1F31_080C_0A0F, 0x3316_3A0D_1739_0818, 0x143B_1C0B_3A1A_1F01 },
    sums! { 0x3324_1B3A_3234_173F, 0x0323_133B_0725_161D, 0x192B_3E01_0305_0F11, 0x3B1C_0B3A_1A1F_0106 },
    sums! { 0x0101_0101_0101_0101, 0x2E1F_3E3F_3D39_3121, 0x271A_2B2A_2E3E_3D31, 0x363A_190D_2B17_3E39 },
    sums! { 0x0101_0101_0101_0101, 0x270D_1A34_2B15_2A17, 0x2512_0B2C_361D_3719, 0x280F_3B11_0E33_1216 },
    sums! { 0x0101_0101_0101_0101, 0x362F_1D3A_372D_1932, 0x2826_1E3B_2922_0E38, 0x173E_3901_0803_1805 },
];

// Returns the values of a word of 64 bits, the first the coefficient of x^63, at α^1 to α^24, and zeros after them.
pub(crate) fn syndromes_of(word: u64) -> [Sym; 32]
    ensures values { (r : ℕ) → r < 24 → coefficient gf64 result r ≡ number_value gf64 (power gf64 alpha (r + 1)) 64 word }
    ensures full { length result ≡ 32 }
{
    let mut syndromes = [Sym::default(); 32];
    for part in 0..3 {
        let octets = eight_values(word, part);
        for b in 0..8 {
            syndromes[8 * part + b] = Sym::of_low_bits(u128::from(octets >> (8 * b)));
        }
    }
    syndromes
}

// Returns the values of a word at α^(8 · part + 1) to α^(8 · part + 8), in the octets of a number, the lowest first.
fn eight_values(word: u64, part: usize) -> u64
    requires { part < 3 }
    ensures { (b : ℕ) → b < 8 → result / 2 ^ (8 * b) % 2 ^ 8 ≡ number (number_value gf64 (power gf64 alpha (8 * part + b + 1)) 64 word) }
{
    let mut values = 0;
    for place in 0..16 {
        values ^= VALUES[3 * place + part][(word >> (4 * place)) as usize % 16];
    }
    values
}
